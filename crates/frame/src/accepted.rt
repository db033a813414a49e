// A frame whose call is accepted: what is left to do behind the refusals. The calls run it, and a script's walk, which tests once for all its frames.
ghost use Rattle.frame.specs.Device.{device};
ghost use Rattle.frame.specs.Line.{on_line};
ghost use Rattle.frame.specs.Ran.{FrameDone, CutDone};
ghost use Rattle.frame.specs.Call.{Accepted, CutAccepted};

use crate::cut::state_cut;
use crate::effect_of;
use state::State;

// The whole frame. `memory` is what it reads and changes.
pub fn run_accepted(
    s: State,
    wp: bool,
    memory: &mut [u8],
    input: &[u8],
    output: &mut [u8],
    driven: &mut [u8],
) -> State
    requires { Accepted wp input.now (device s memory.old) (on_line output.old driven.old) }
    ensures { FrameDone wp input.now (device s memory.old) (device result memory.new) (on_line output.new driven.new) }
{
    let c = command::understand::command_of(s, wp, input);
    output::emit(s, c, memory, output, driven);
    effect::change::change(memory, effect_of(c), input);
    registers::state_after(s, c)
}

// The frame interrupted by a power cut, and power-up.
pub fn run_accepted_cut(
    s: State,
    wp: bool,
    memory: &mut [u8],
    input: &[u8],
    output: &mut [u8],
    driven: &mut [u8],
    mask: &[u8],
) -> State
    requires { CutAccepted wp input.now mask.now (device s memory.old) (on_line output.old driven.old) }
    ensures { CutDone wp input.now mask.now (device s memory.old) (device result memory.new) (on_line output.new driven.new) }
{
    let c = command::understand::command_of(s, wp, input);
    output::emit(s, c, memory, output, driven);
    effect::change::cut_change(memory, effect_of(c), input, mask);
    state::power::powered_up(state_cut(s, c, mask))
}
