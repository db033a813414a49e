// The refusals of the calls about names, in the order checked.
ghost use Rattle.std.specs.Prelude.{◌≡◌, ◌≤◌, IfOk};
ghost use Rattle.common.specs.Refusals.{number_in, first_of};
ghost use Rattle.book.specs.Book.{is_read};
ghost use Rattle.sectors.specs.Moves.{is_past};
ghost use Rattle.namechecks.specs.Refusals.{name_refusals, list_refusals};

use book::Book;
use book::refusal::{check_book, is_sector};
use common::refusals::Refusal;
use namelist::list::{MOST_NAMES, NameList};
use state::State;

// Of a call about one name: 1, 2, 15, 18; `size` is the array's length.
pub fn check_name(s: State, size: usize, sector: usize, name: &[u8]) -> Result<(), Refusal>
    ensures { number_in result ≡ first_of (name_refusals s size sector name.now) }
{
    check_book(s, size, sector, false)?;
    if !names::name::is_name(name) {
        return Err(Refusal::WrongNames);
    }
    Ok(())
}

// Whether a scene past so many names is read.
fn is_past(book: &Book, count: usize) -> bool
    requires { count ≤ 4096 }
    ensures { result ≡ is_past (is_read book.now.array.now book.now.sector) count }
{
    (count..MOST_NAMES).any(|scene| book.scene_read(scene as u32))
}

// Of a call about a book, a sector of names and a list: 1, 2, 15, 6, 18, 19; without any, the list's names. A read scene past the list matters to a
// move only; no closure for that, since it is one test more in the midst of the others.
pub fn check_list<'a>(
    s: State,
    array: &[u8],
    book: usize,
    sector: usize,
    list: &'a [u8],
    moving: bool,
) -> Result<NameList<'a>, Refusal>
    ensures number { number_in result ≡ first_of (list_refusals s array.now book sector list.now moving) }
    ensures read { IfOk result (λ names. names.bytes.now ≡ list.now) }
{
    let opened = Book::open(s, array, book, !is_sector(s, sector))?;
    if book == sector {
        return Err(Refusal::WrongRegion);
    }
    let names = NameList::read(list).ok_or(Refusal::WrongNames)?;
    if moving && is_past(&opened, names.count()) {
        return Err(Refusal::WrongNames);
    }
    if names.has_twice() {
        return Err(Refusal::NameTwice);
    }
    Ok(names)
}
