// Whether a name stands twice in the list. Every pair would have to be compared, so a print of each name is kept, and the names are compared only
// where one of the earlier prints is the same.
ghost use Rattle.std.specs.Prelude.{◌≡◌, take};
ghost use Rattle.names.specs.Search.{is_on};
ghost use Rattle.namelist.specs.Listed.{listed, names_in};
ghost use Rattle.namelist.specs.Twice.{is_twice, print_of};

use crate::list::{MOST_NAMES, NameList};
use names::name::same;

fn print_of(name: &[u8]) -> u32
    ensures { result ≡ print_of name.now }
{
    // No `fold`: its closure is proved for every print so far, and the product of a large one doesn't fit; here the loop's invariant bounds it.
    let mut print: u32 = 0;
    for byte in name {
        // kept below 2^24, so that the next product fits
        print = (print * 251 + u32::from(*byte)) % 16777216;
    }
    print
}

impl NameList<'_> {
    // Whether a name is one of the first so many.
    fn is_among(&self, count: usize, name: &[u8]) -> bool
        ensures { result ≡ is_on name.now (take count (names_in (listed self.now.bytes.now))) }
    {
        self.iter().take(count).any(|other| same(name, other))
    }

    pub fn has_twice(&self) -> bool
        ensures { result ≡ is_twice (names_in (listed self.now.bytes.now)) }
    {
        // No Vec: there is no heap.
        let mut prints = [0u32; MOST_NAMES];
        for (count, name) in self.iter().enumerate() {
            let print = print_of(name);
            if prints[..count].contains(&print) && self.is_among(count, name) {
                return true;
            }
            prints[count] = print;
        }
        false
    }
}
