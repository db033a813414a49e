// A good list: read, its names taken one by one, counted and searched.
ghost use Rattle.std.specs.Prelude.{◌≡◌, true, false, MatchOption, length};
ghost use Rattle.std.specs.Iterator.{YieldsFirstRef, item_count};
ghost use Rattle.namelist.specs.Listed.{listed, is_bad, names_in, count_in, found_in};

use names::name::{is_name, same};

pub const MOST_NAMES: usize = 4096;

// What a bad list counts as: more names than a list may have.
const BAD: usize = 4097;

// The bytes of a list that is not bad.
#[derive(Clone, Copy)]
pub struct NameList<'a> {
    pub bytes: &'a [u8],
    pub ghost good: { is_bad (listed bytes.now) ≡ false },
}

impl<'a> NameList<'a> {
    // None: a bad name, one that is cut short, or too many.
    pub fn read(list: &'a [u8]) -> Option<NameList<'a>>
        ensures { MatchOption result (is_bad (listed list.now) ≡ true) (λ names. names.bytes.now ≡ list.now) }
    {
        // No `for`: the iterator below is of a good list, and here it isn't known yet whether this is one.
        let mut left = list;
        let mut names: usize = 0;
        while let Some((length, rest)) = left.split_first() {
            let (name, others) = rest.split_at_checked(usize::from(*length))?;
            let is_full = names == MOST_NAMES;
            if is_full || !is_name(name) {
                return None;
            }
            names += 1;
            left = others;
        }
        Some(NameList { bytes: list })
    }

    pub fn iter(&self) -> NamesLeft<'a>
        ensures { names_in (listed result.left.now) ≡ names_in (listed self.now.bytes.now) }
    {
        NamesLeft { left: self.bytes }
    }

    pub fn count(&self) -> usize
        ensures { result ≡ length (names_in (listed self.now.bytes.now)) }
    {
        self.iter().count()
    }

    // The position of a name, if it is one of them.
    pub fn position_of(&self, name: &[u8]) -> Option<usize>
        ensures { result ≡ found_in name.now (names_in (listed self.now.bytes.now)) }
    {
        self.iter().position(|other| same(name, other))
    }
}

// How many names any list has; a bad one counts as 4,097.
pub fn count(list: &[u8]) -> usize
    ensures { result ≡ count_in (listed list.now) }
{
    match NameList::read(list) {
        Some(names) => names.count(),
        None => BAD,
    }
}

// The names of a list that are left.
#[derive(Clone, Copy)]
pub struct NamesLeft<'a> {
    left: &'a [u8],
    ghost good: { is_bad (listed left.now) ≡ false },
}

impl<'a> Iterator for NamesLeft<'a> {
    type Item = &'a [u8];

    ghost next_gives = { YieldsFirstRef (λ names. names_in (listed names.left.now)) };

    ghost remaining = { item_count (λ names. names_in (listed names.left.now)) };

    fn next(&mut self) -> Option<&'a [u8]> {
        let (length, rest) = self.left.split_first()?;
        let (name, others) = rest.split_at(usize::from(*length));
        self.left = others;
        Some(name)
    }
}
