// The flag book: 4,096 scenes by position in one sector, one bit each, 1 unread and 0 read. It tells which are read and plans the marking
// of a list; it knows of the planner what `promises` says, and nothing else.
#![tactic(auto)]

pub mod marking; // the used bytes, as they are to be
pub mod refusal; // 1, 2 and 15
pub mod sizes;
pub mod telling; // what the bytes say

ghost use Rattle.std.specs.Prelude.{◌≡◌};
ghost use Rattle.book.specs.Answers.{is_read_told, count_told, Marks};

use refusal::has_over;
use sizes::LAST_SCENE;
use state::{Planned, State, Told};
pub use telling::Book;

// Whether a scene is read: 1 or 0.
pub fn is_read(s: State, array: &[u8], sector: usize, scene: u32) -> Told
    ensures { result ≡ is_read_told s array.now sector scene }
{
    match Book::open(s, array, sector, LAST_SCENE < scene) {
        Ok(book) => state::tell(0, s, u32::from(book.scene_read(scene))),
        Err(refusal) => state::tell(refusal.number(), s, 0),
    }
}

// How many scenes are read.
pub fn count_read(s: State, array: &[u8], sector: usize) -> Told
    ensures { result ≡ count_told s array.now sector }
{
    match Book::open(s, array, sector, false) {
        Ok(book) => state::tell(0, s, book.scenes_read()),
        Err(refusal) => state::tell(refusal.number(), s, 0),
    }
}

// Plan the marking of a list of scenes: the script goes to the front of the buffer.
pub fn mark(
    s: State,
    wp: bool,
    array: &[u8],
    sector: usize,
    scenes: &[u32],
    buffer: &mut [u8],
) -> Planned
    ensures { Marks s wp array.now sector scenes.now buffer.old buffer.new result }
{
    let book = match Book::open(s, array, sector, has_over(scenes)) {
        Ok(book) => book,
        Err(refusal) => return state::refuse_plan(refusal.number(), s),
    };
    let mut used = book.used_bytes();
    marking::mark_scenes(scenes, &mut used);
    promises::plan_update(s, wp, array, sector, &used, buffer)
}
