// A book of the array, and what its bytes say.
ghost use Rattle.std.specs.Prelude.{◌≡◌, ◌+◌, ◌≤◌, ◌<◌, ◌*◌, length, IfOk};
ghost use Rattle.common.specs.Lists.{count_below};
ghost use Rattle.common.specs.Refusals.{number_in, first_of};
ghost use Rattle.book.specs.Book.{is_read, count_read, used_part};
ghost use Rattle.book.specs.Refusals.{book_refusals};

use crate::refusal::check_book;
use crate::sizes::USED;
use common::limits::ERASED;
use common::refusals::Refusal;
use state::State;

// The book whose used bytes begin at a sector's start: they lie in the array.
#[derive(Clone, Copy)]
pub struct Book<'a> {
    pub array: &'a [u8],
    pub sector: usize,
    pub ghost inside: { sector + 512 ≤ length array.now },
}

impl<'a> Book<'a> {
    // The book at a sector, by `check_book`.
    pub fn open(s: State, array: &'a [u8], sector: usize, wrong: bool) -> Result<Book<'a>, Refusal>
        ensures number { number_in result ≡ first_of (book_refusals s (length array.now) sector wrong) }
        ensures opened { IfOk result (λ book. (book.array.now ≡ array.now) × (book.sector ≡ sector)) }
    {
        check_book(s, array.len(), sector, wrong)?;
        Ok(Book { array, sector })
    }

    pub fn scene_read(&self, scene: u32) -> bool
        requires { scene < 4096 }
        ensures { result ≡ is_read self.now.array.now self.now.sector scene }
    {
        let byte = self.array[self.sector + scene as usize / 8];
        (byte >> (scene % 8)) % 2 == 0
    }

    pub fn scenes_read(&self) -> u32
        ensures { result ≡ count_read self.now.array.now self.now.sector }
    {
        let end = self.sector + USED;
        zeros_in(&self.array[self.sector..end])
    }

    pub fn used_bytes(&self) -> [u8; USED]
        ensures { result ≡ used_part self.now.array.now self.now.sector }
    {
        let end = self.sector + USED;
        let mut used = [ERASED; USED];
        used.copy_from_slice(&self.array[self.sector..end]);
        used
    }
}

// How many zeros the bytes have: each is a scene that is read.
fn zeros_in(bytes: &[u8]) -> u32
    requires { length bytes.now ≤ 512 }
    ensures { result ≡ count_below (is_read bytes.now 0) (length bytes.now * 8) }
{
    bytes.iter().map(|&byte| byte.count_zeros()).sum()
}
