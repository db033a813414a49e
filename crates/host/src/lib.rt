// The calls for programs in C, C++ or Rust, which include/zeradok.h declares and crate `host_c` exports. Each is one call of the model, under a name of its own.
#![tactic(auto)]

mod reader;

ghost use Rattle.std.specs.Prelude.{◌≡◌};
ghost use Rattle.state.specs.Power.{new_chip, power_up};
ghost use Rattle.state.specs.Time.{pass_time};
ghost use Rattle.frame.specs.Device.{device};
ghost use Rattle.frame.specs.Line.{on_line};
ghost use Rattle.frame.specs.Call.{FrameRun, CutRun};
ghost use Rattle.plan.specs.Update.{PlanUpdated};
ghost use Rattle.script.specs.Survey.{survey_of};
ghost use Rattle.run.specs.Script.{ScriptRun};
ghost use Rattle.book.specs.Answers.{is_read_told, count_told, Marks};
ghost use Rattle.salvage.specs.Answers.{Salvages};
ghost use Rattle.flags.specs.Answers.{name_told, NameMarks, BookMoves, BookReturns};
ghost use Rattle.host.specs.Read.{ReadAnswered};

use flags::Returned;
pub use reader::Record;
use run::Ran;
use salvage::Salvaged;
use script::survey::Surveyed;
use state::{Answer, Planned, State, Told};

// Make a new chip.
pub fn zeradok_new(chip: u8) -> Answer
    ensures { result ≡ new_chip chip }
{
    state::power::new_chip(chip)
}

// Power the chip up again.
pub fn zeradok_power_up(chip: State) -> Answer
    ensures { result ≡ power_up chip }
{
    state::power::power_up(chip)
}

// Let so many microseconds pass.
pub fn zeradok_wait(chip: State, microseconds: u32) -> Answer
    ensures { result ≡ pass_time chip microseconds }
{
    state::time::pass_time(chip, microseconds)
}

// Run a frame. The state is lent, and is changed where it stands; the number is returned. Where `output` holds a byte, `driven` holds 01 if the chip
// drove it, 00 if it was silent.
pub fn zeradok_frame(
    chip: &mut State,
    wp_high: bool,
    array: &mut [u8],
    frame: &[u8],
    output: &mut [u8],
    driven: &mut [u8],
) -> u32
    ensures { FrameRun wp_high frame.now (device chip.old array.old) (on_line output.old driven.old) result (device chip.new array.new) (on_line output.new driven.new) }
{
    let s = *chip;
    let a = frame::call::run_frame(s, wp_high, array, frame, output, driven);
    *chip = a.state;
    a.number
}

// Run a frame whose power is cut, then power up: the state is lent as above.
pub fn zeradok_cut_frame(
    chip: &mut State,
    wp_high: bool,
    array: &mut [u8],
    frame: &[u8],
    output: &mut [u8],
    driven: &mut [u8],
    mask: &[u8],
) -> u32
    ensures { CutRun wp_high frame.now mask.now (device chip.old array.old) (on_line output.old driven.old) result (device chip.new array.new) (on_line output.new driven.new) }
{
    let s = *chip;
    let a = frame::call::run_cut_frame(s, wp_high, array, frame, output, driven, mask);
    *chip = a.state;
    a.number
}

// Plan an update of the bytes from `start` on: the script goes to the front of the buffer.
pub fn zeradok_plan(
    chip: State,
    wp_high: bool,
    array: &[u8],
    start: usize,
    wanted: &[u8],
    buffer: &mut [u8],
) -> Planned
    ensures { PlanUpdated chip wp_high array.now start wanted.now buffer.old buffer.new result }
{
    plan::plan_update(chip, wp_high, array, start, wanted, buffer)
}

// Look a script through without running it.
pub fn zeradok_survey(script: &[u8]) -> Surveyed
    ensures { result ≡ survey_of script.now }
{
    script::survey::survey_of(script)
}

// Run a script.
pub fn zeradok_run(
    chip: State,
    wp_high: bool,
    array: &mut [u8],
    script: &[u8],
    output: &mut [u8],
    driven: &mut [u8],
) -> Ran
    ensures { ScriptRun wp_high script.now (device chip array.old) (on_line output.old driven.old) result (device result.state array.new) (on_line output.new driven.new) }
{
    run::run_script(chip, wp_high, array, script, output, driven)
}

// Read the record at an offset of a script.
pub fn zeradok_read(script: &[u8], offset: usize) -> Record
    ensures { ReadAnswered script.now offset result }
{
    script::reader::record_at(script, offset).into()
}

// Whether a scene of a flag book is read: 1 or 0.
pub fn zeradok_book_is_read(chip: State, array: &[u8], sector: usize, scene: u32) -> Told
    ensures { result ≡ is_read_told chip array.now sector scene }
{
    book::is_read(chip, array, sector, scene)
}

// How many scenes of a flag book are read.
pub fn zeradok_book_count(chip: State, array: &[u8], sector: usize) -> Told
    ensures { result ≡ count_told chip array.now sector }
{
    book::count_read(chip, array, sector)
}

// Plan the marking of a list of scenes in a flag book: the script goes to the front of the buffer.
pub fn zeradok_book_mark(
    chip: State,
    wp_high: bool,
    array: &[u8],
    sector: usize,
    scenes: &[u32],
    buffer: &mut [u8],
) -> Planned
    ensures { Marks chip wp_high array.now sector scenes.now buffer.old buffer.new result }
{
    book::mark(chip, wp_high, array, sector, scenes, buffer)
}

// Salvage a sick name sector: no chip and no state, since an image is all that it looks at.
pub fn zeradok_salvage(sector: &[u8], kept: &mut [u8], dropped: &mut [u8]) -> Salvaged
    ensures { Salvages sector.now kept.old dropped.old kept.new dropped.new result }
{
    salvage::salvage(sector, kept, dropped)
}

// Whether a record of a sector of names has a name: 1 or 0.
pub fn zeradok_names_is_read(chip: State, array: &[u8], sector: usize, name: &[u8]) -> Told
    ensures { result ≡ name_told chip array.now sector name.now }
{
    flags::is_read(chip, array, sector, name)
}

// Plan the marking of a name: the script goes to the front of the buffer.
pub fn zeradok_names_mark(
    chip: State,
    wp_high: bool,
    array: &[u8],
    sector: usize,
    name: &[u8],
    buffer: &mut [u8],
) -> Planned
    ensures { NameMarks chip wp_high array.now sector name.now buffer.old buffer.new result }
{
    flags::mark(chip, wp_high, array, sector, name, buffer)
}

// Plan the move of a flag book into a sector of names.
pub fn zeradok_names_move(
    chip: State,
    wp_high: bool,
    array: &[u8],
    book: usize,
    sector: usize,
    list: &[u8],
    buffer: &mut [u8],
) -> Planned
    ensures { BookMoves chip wp_high array.now book sector list.now buffer.old buffer.new result }
{
    flags::move_there(chip, wp_high, array, book, sector, list, buffer)
}

// Plan the way back, from a sector of names into a flag book.
pub fn zeradok_names_back(
    chip: State,
    wp_high: bool,
    array: &[u8],
    sector: usize,
    book: usize,
    list: &[u8],
    buffer: &mut [u8],
) -> Returned
    ensures { BookReturns chip wp_high array.now sector book list.now buffer.old buffer.new result }
{
    flags::move_back(chip, wp_high, array, sector, book, list, buffer)
}
