// Flags by name: records in a sector of their own, marked one by one or moved there from a position book, and the way back. It knows of the planner
// what `promises` says, and nothing else.
#![tactic(auto)]

ghost use Rattle.std.specs.Prelude.{◌≡◌, ◌+◌, ◌≤◌, length};
ghost use Rattle.names.specs.Records.{padded};
ghost use Rattle.promises.specs.Promises.{Plans};
ghost use Rattle.sectors.specs.Images.{sector_part};
ghost use Rattle.flags.specs.Answers.{name_told, NameMarks, BookMoves, returned_of, BookReturns};

use book::Book;
use book::sizes::USED;
use common::buffer::put;
use common::limits::{ERASED, SECTOR};
use common::refusals::Refusal;
use namechecks::refusal::{check_list, check_name};
use names::record::HEAD;
use names::search::find;
use sectors::{image, moving, returning};
use state::{Planned, State, Told};

// The answer of the way back: a plan's, and how many records have a name that is not on the list; with a refusal 0. No Result: C reads this struct.
#[repr(C)]
#[derive(Clone, Copy)]
pub struct Returned {
    pub number: u32,
    pub state: State,
    pub length: u32,
    pub frames: u32,
    pub microseconds: u32,
    pub unlisted: u32,
}

// The bytes of a sector.
fn sector_at(array: &[u8], sector: usize) -> &[u8]
    requires { sector + 4096 ≤ length array.now }
    ensures { result.now ≡ sector_part array.now sector }
{
    let end = sector + SECTOR;
    &array[sector..end]
}

// Whether a record has the name: 1 or 0.
pub fn is_read(s: State, array: &[u8], sector: usize, name: &[u8]) -> Told
    ensures { result ≡ name_told s array.now sector name.now }
{
    if let Err(refusal) = check_name(s, array.len(), sector, name) {
        return state::tell(refusal.number(), s, 0);
    }
    let found = find(sector_at(array, sector), name).is_ok();
    state::tell(0, s, u32::from(found))
}

// Plan the marking of a name: the script goes to the front of the buffer.
pub fn mark(
    s: State,
    wp: bool,
    array: &[u8],
    sector: usize,
    name: &[u8],
    buffer: &mut [u8],
) -> Planned
    ensures { NameMarks s wp array.now sector name.now buffer.old buffer.new result }
{
    if let Err(refusal) = check_name(s, array.len(), sector, name) {
        return state::refuse_plan(refusal.number(), s);
    }
    let image = sector_at(array, sector);
    let Err(records_end) = find(image, name) else {
        // a name that is there wants the sector as it stands
        return promises::plan_update(s, wp, array, sector, image, buffer);
    };
    if SECTOR - records_end < HEAD + name.len() {
        return state::refuse_plan(Refusal::RecordsTooLong.number(), s);
    }
    let mut wanted = image::blank();
    image::append(image, records_end, name, &mut wanted);
    promises::plan_update(s, wp, array, sector, &wanted, buffer)
}

// Plan the records of a book's read scenes into a sector of names, by the list of names by position.
pub fn move_there(
    s: State,
    wp: bool,
    array: &[u8],
    book: usize,
    sector: usize,
    list: &[u8],
    buffer: &mut [u8],
) -> Planned
    ensures { BookMoves s wp array.now book sector list.now buffer.old buffer.new result }
{
    let names = match check_list(s, array, book, sector, list, true) {
        Ok(names) => names,
        Err(refusal) => return state::refuse_plan(refusal.number(), s),
    };
    let opened = Book {
        array,
        sector: book,
    };
    let mut wanted = image::blank();
    if let Err(refusal) = moving::lay_move(&opened, &names, sector_at(array, sector), &mut wanted) {
        return state::refuse_plan(refusal.number(), s);
    }
    promises::plan_update(s, wp, array, sector, &wanted, buffer)
}

// No `From`: a plan alone doesn't tell the count.
fn return_of(planned: Planned, unlisted: u32) -> Returned
    ensures { result ≡ returned_of planned unlisted }
{
    Returned {
        number: planned.number,
        state: planned.state,
        length: planned.length,
        frames: planned.frames,
        microseconds: planned.microseconds,
        unlisted: if planned.number == 0 { unlisted } else { 0 },
    }
}

// Plan a book with these used bytes in an erased sector. Not inlined: `move_back` would clear the sector that is laid here before it checks anything, and
// a refusal would cost twice as much.
#[inline(never)]
fn plan_book(
    s: State,
    wp: bool,
    array: &[u8],
    book: usize,
    used: &[u8; USED],
    buffer: &mut [u8],
) -> Planned
    ensures { Plans s wp array.now book (padded used.now) buffer.old buffer.new result }
{
    let mut wanted = image::blank();
    put(used, &mut wanted, 0);
    promises::plan_update(s, wp, array, book, &wanted, buffer)
}

// Plan the book of the scenes that the records name, by the same list.
pub fn move_back(
    s: State,
    wp: bool,
    array: &[u8],
    sector: usize,
    book: usize,
    list: &[u8],
    buffer: &mut [u8],
) -> Returned
    ensures { BookReturns s wp array.now sector book list.now buffer.old buffer.new result }
{
    let names = match check_list(s, array, book, sector, list, false) {
        Ok(names) => names,
        Err(refusal) => return return_of(state::refuse_plan(refusal.number(), s), 0),
    };
    let mut used = [ERASED; USED];
    let unlisted = returning::mark_listed(sector_at(array, sector), &names, &mut used);
    return_of(plan_book(s, wp, array, book, &used, buffer), unlisted)
}
