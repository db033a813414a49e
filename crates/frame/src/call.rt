// The calls: run a frame, run an interrupted frame. Each is its refusals, then the accepted frame.
// The slices stay parameters, here and in `accepted`: C lends each apart, and a struct that held the `&mut` among them would ask a clause on each one's
// ghost name of every function.
ghost use Rattle.std.specs.Prelude.{◌≡◌};
ghost use Rattle.common.specs.Refusals.{number_in};
ghost use Rattle.frame.specs.Device.{device};
ghost use Rattle.frame.specs.Line.{on_line};
ghost use Rattle.frame.specs.Call.{frame_number, FrameRun, cut_number, CutRun};

use crate::accepted::{run_accepted, run_accepted_cut};
use crate::cut::takes_mask;
use common::limits::LONGEST_FRAME;
use common::refusals::Refusal;
use state::soundness::check_chip;
use state::{Answer, State};

#[tactic(auto, unfolding(crate::specs::Call::frame_number))]
fn check_frame(
    s: State,
    wp: bool,
    array: &[u8],
    input: &[u8],
    output: &[u8],
    driven: &[u8],
) -> Result<(), Refusal>
    ensures { number_in result ≡ frame_number wp input.now (device s array.now) (on_line output.now driven.now) }
{
    check_chip(s, array.len())?;
    if input.is_empty() || LONGEST_FRAME < input.len() {
        return Err(Refusal::WrongFrame);
    }
    if output.len() != input.len() || driven.len() != input.len() {
        return Err(Refusal::WrongOutput);
    }
    Ok(())
}

// Run a frame: the bytes between select and deselect.
pub fn run_frame(
    s: State,
    wp: bool,
    array: &mut [u8],
    input: &[u8],
    output: &mut [u8],
    driven: &mut [u8],
) -> Answer
    ensures { FrameRun wp input.now (device s array.old) (on_line output.old driven.old) result.number (device result.state array.new) (on_line output.new driven.new) }
{
    match check_frame(s, wp, array, input, output, driven) {
        Ok(()) => state::grant(run_accepted(s, wp, array, input, output, driven)),
        Err(refusal) => state::refuse(refusal.number(), s),
    }
}

fn check_cut(
    s: State,
    wp: bool,
    array: &[u8],
    input: &[u8],
    output: &[u8],
    driven: &[u8],
    mask: &[u8],
) -> Result<(), Refusal>
    ensures { number_in result ≡ cut_number wp input.now mask.now (device s array.now) (on_line output.now driven.now) }
{
    check_frame(s, wp, array, input, output, driven)?;
    let c = command::understand::command_of(s, wp, input);
    if !takes_mask(c, mask) {
        return Err(Refusal::WrongMask);
    }
    Ok(())
}

// Run a frame whose power is cut, with a mask byte for each array byte it programs or erases, or one for a status write that takes time; then power-up.
pub fn run_cut_frame(
    s: State,
    wp: bool,
    array: &mut [u8],
    input: &[u8],
    output: &mut [u8],
    driven: &mut [u8],
    mask: &[u8],
) -> Answer
    ensures { CutRun wp input.now mask.now (device s array.old) (on_line output.old driven.old) result.number (device result.state array.new) (on_line output.new driven.new) }
{
    match check_cut(s, wp, array, input, output, driven, mask) {
        Ok(()) => state::grant(run_accepted_cut(s, wp, array, input, output, driven, mask)),
        Err(refusal) => state::refuse(refusal.number(), s),
    }
}
