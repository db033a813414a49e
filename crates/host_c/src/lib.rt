// The static library for programs in C, C++ or Rust: include/zeradok.h declares these calls. Each is the call of crate `host` of the same name.
#![tactic(auto)]

ghost use Rattle.std.specs.Prelude.{◌≡◌};
ghost use Rattle.state.specs.Power.{new_chip, power_up};
ghost use Rattle.state.specs.Time.{pass_time};
ghost use Rattle.frame.specs.Device.{device};
ghost use Rattle.frame.specs.Line.{on_line};
ghost use Rattle.frame.specs.Call.{FrameRun, CutRun};
ghost use Rattle.plan.specs.Update.{PlanUpdated};
ghost use Rattle.script.specs.Survey.{survey_of};
ghost use Rattle.run.specs.Script.{ScriptRun};
ghost use Rattle.book.specs.Answers.{is_read_told, count_told, Marks};
ghost use Rattle.salvage.specs.Answers.{Salvages};
ghost use Rattle.flags.specs.Answers.{name_told, NameMarks, BookMoves, BookReturns};
ghost use Rattle.host.specs.Read.{ReadAnswered};

use flags::Returned;
use host::Record;
use run::Ran;
use salvage::Salvaged;
use script::survey::Surveyed;
use state::{Answer, Planned, State, Told};

#[unsafe(no_mangle)]
pub extern "C" fn zeradok_new(chip: u8) -> Answer
    ensures { result ≡ new_chip chip }
{
    host::zeradok_new(chip)
}

#[unsafe(no_mangle)]
pub extern "C" fn zeradok_power_up(chip: State) -> Answer
    ensures { result ≡ power_up chip }
{
    host::zeradok_power_up(chip)
}

#[unsafe(no_mangle)]
pub extern "C" fn zeradok_wait(chip: State, microseconds: u32) -> Answer
    ensures { result ≡ pass_time chip microseconds }
{
    host::zeradok_wait(chip, microseconds)
}

#[unsafe(no_mangle)]
pub extern "C" fn zeradok_frame(
    chip: &mut State,
    wp_high: bool,
    array: &mut [u8],
    frame: &[u8],
    output: &mut [u8],
    driven: &mut [u8],
) -> u32
    ensures { FrameRun wp_high frame.now (device chip.old array.old) (on_line output.old driven.old) result (device chip.new array.new) (on_line output.new driven.new) }
{
    host::zeradok_frame(chip, wp_high, array, frame, output, driven)
}

#[unsafe(no_mangle)]
pub extern "C" fn zeradok_cut_frame(
    chip: &mut State,
    wp_high: bool,
    array: &mut [u8],
    frame: &[u8],
    output: &mut [u8],
    driven: &mut [u8],
    mask: &[u8],
) -> u32
    ensures { CutRun wp_high frame.now mask.now (device chip.old array.old) (on_line output.old driven.old) result (device chip.new array.new) (on_line output.new driven.new) }
{
    host::zeradok_cut_frame(chip, wp_high, array, frame, output, driven, mask)
}

#[unsafe(no_mangle)]
pub extern "C" fn zeradok_plan(
    chip: State,
    wp_high: bool,
    array: &[u8],
    start: usize,
    wanted: &[u8],
    buffer: &mut [u8],
) -> Planned
    ensures { PlanUpdated chip wp_high array.now start wanted.now buffer.old buffer.new result }
{
    host::zeradok_plan(chip, wp_high, array, start, wanted, buffer)
}

#[unsafe(no_mangle)]
pub extern "C" fn zeradok_survey(script: &[u8]) -> Surveyed
    ensures { result ≡ survey_of script.now }
{
    host::zeradok_survey(script)
}

#[unsafe(no_mangle)]
pub extern "C" fn zeradok_run(
    chip: State,
    wp_high: bool,
    array: &mut [u8],
    script: &[u8],
    output: &mut [u8],
    driven: &mut [u8],
) -> Ran
    ensures { ScriptRun wp_high script.now (device chip array.old) (on_line output.old driven.old) result (device result.state array.new) (on_line output.new driven.new) }
{
    host::zeradok_run(chip, wp_high, array, script, output, driven)
}

#[unsafe(no_mangle)]
pub extern "C" fn zeradok_read(script: &[u8], offset: usize) -> Record
    ensures { ReadAnswered script.now offset result }
{
    host::zeradok_read(script, offset)
}

#[unsafe(no_mangle)]
pub extern "C" fn zeradok_book_is_read(chip: State, array: &[u8], sector: usize, scene: u32) -> Told
    ensures { result ≡ is_read_told chip array.now sector scene }
{
    host::zeradok_book_is_read(chip, array, sector, scene)
}

#[unsafe(no_mangle)]
pub extern "C" fn zeradok_book_count(chip: State, array: &[u8], sector: usize) -> Told
    ensures { result ≡ count_told chip array.now sector }
{
    host::zeradok_book_count(chip, array, sector)
}

#[unsafe(no_mangle)]
pub extern "C" fn zeradok_book_mark(
    chip: State,
    wp_high: bool,
    array: &[u8],
    sector: usize,
    scenes: &[u32],
    buffer: &mut [u8],
) -> Planned
    ensures { Marks chip wp_high array.now sector scenes.now buffer.old buffer.new result }
{
    host::zeradok_book_mark(chip, wp_high, array, sector, scenes, buffer)
}

#[unsafe(no_mangle)]
pub extern "C" fn zeradok_salvage(sector: &[u8], kept: &mut [u8], dropped: &mut [u8]) -> Salvaged
    ensures { Salvages sector.now kept.old dropped.old kept.new dropped.new result }
{
    host::zeradok_salvage(sector, kept, dropped)
}

#[unsafe(no_mangle)]
pub extern "C" fn zeradok_names_is_read(
    chip: State,
    array: &[u8],
    sector: usize,
    name: &[u8],
) -> Told
    ensures { result ≡ name_told chip array.now sector name.now }
{
    host::zeradok_names_is_read(chip, array, sector, name)
}

#[unsafe(no_mangle)]
pub extern "C" fn zeradok_names_mark(
    chip: State,
    wp_high: bool,
    array: &[u8],
    sector: usize,
    name: &[u8],
    buffer: &mut [u8],
) -> Planned
    ensures { NameMarks chip wp_high array.now sector name.now buffer.old buffer.new result }
{
    host::zeradok_names_mark(chip, wp_high, array, sector, name, buffer)
}

#[unsafe(no_mangle)]
pub extern "C" fn zeradok_names_move(
    chip: State,
    wp_high: bool,
    array: &[u8],
    book: usize,
    sector: usize,
    list: &[u8],
    buffer: &mut [u8],
) -> Planned
    ensures { BookMoves chip wp_high array.now book sector list.now buffer.old buffer.new result }
{
    host::zeradok_names_move(chip, wp_high, array, book, sector, list, buffer)
}

#[unsafe(no_mangle)]
pub extern "C" fn zeradok_names_back(
    chip: State,
    wp_high: bool,
    array: &[u8],
    sector: usize,
    book: usize,
    list: &[u8],
    buffer: &mut [u8],
) -> Returned
    ensures { BookReturns chip wp_high array.now sector book list.now buffer.old buffer.new result }
{
    host::zeradok_names_back(chip, wp_high, array, sector, book, list, buffer)
}
