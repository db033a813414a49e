// Scripts run on a chip (01, "Scripts and plans").
#![tactic(auto)]

mod records;

ghost use Rattle.std.specs.Prelude.{◌≡◌};
ghost use Rattle.frame.specs.Device.{device};
ghost use Rattle.frame.specs.Line.{on_line};
ghost use Rattle.script.specs.Survey.{in_struct};
ghost use Rattle.run.specs.Script.{carries_offset, Checked, ScriptRun};

use common::refusals::Refusal;
use script::survey::{Counts, Refused, counts_of};
use state::State;
use state::soundness::check_chip;

// What running a script answers: number 0 with the chip's state and the counts, or the refusal's number with the given state and, where it
// carries one, the offset of the first bad record's mark. No Result: C reads this struct.
#[repr(C)]
#[derive(Clone, Copy)]
pub struct Ran {
    pub number: u32,
    pub state: State,
    pub frames: u32,
    pub microseconds: u64,
    pub offset: usize,
}

// Whether a refusal, by its number as an answer carries it, comes with the offset of a record.
pub fn carries_offset(number: u32) -> bool
    ensures { result ≡ carries_offset number }
{
    number == Refusal::UnknownMark.number()
        || number == Refusal::WrongLength.number()
        || number == Refusal::CutShort.number()
}

// What the records count, or why the script is not run. The slices stay parameters, here and below, as C lends them (frame/src/call.rt).
fn check_script(
    s: State,
    wp: bool,
    array: &[u8],
    script: &[u8],
    output: &[u8],
    driven: &[u8],
) -> Result<Counts, Refused>
    ensures { Checked wp script.now (device s array.now) (on_line output.now driven.now) (in_struct result) }
{
    check_chip(s, array.len())?;
    let counts = counts_of(script)?;
    if output.len() != counts.output || driven.len() != counts.output {
        return Err(Refusal::WrongOutput.into());
    }
    Ok(counts)
}

// Run a script, with one WP level for all its frames. Every record is checked before the first is run.
pub fn run_script(
    s: State,
    wp: bool,
    array: &mut [u8],
    script: &[u8],
    output: &mut [u8],
    driven: &mut [u8],
) -> Ran
    ensures { ScriptRun wp script.now (device s array.old) (on_line output.old driven.old) result (device result.state array.new) (on_line output.new driven.new) }
{
    let counts = match check_script(s, wp, array, script, output, driven) {
        Ok(counts) => counts,
        Err(refused) => {
            return Ran {
                number: refused.refusal.number(),
                state: s,
                frames: 0,
                microseconds: 0,
                offset: refused.offset,
            };
        }
    };
    let state = records::run_records(s, wp, array, script, output, driven);
    Ran {
        number: 0,
        state,
        frames: counts.frames,
        microseconds: counts.microseconds,
        offset: 0,
    }
}
