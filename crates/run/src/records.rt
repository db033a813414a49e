// The records of a script, run one after another.
ghost use Rattle.frame.specs.Device.{device};
ghost use Rattle.frame.specs.Line.{on_line};
ghost use Rattle.run.specs.Script.{ScriptAccepted, ScriptDone};

use frame::accepted::run_accepted;
use script::reader::{Found, front_at, part_at};
use state::State;
use state::time::time_passed;

// The script has been checked, so none of its records is refused, and each frame is accepted. What a frame shows is laid
// behind what those before it showed, in both slices: they come as C lends them, so they are no struct.
pub(crate) fn run_records(
    s: State,
    wp: bool,
    array: &mut [u8],
    script: &[u8],
    output: &mut [u8],
    driven: &mut [u8],
) -> State
    requires { ScriptAccepted wp script.now (device s array.old) (on_line output.old driven.old) }
    ensures { ScriptDone wp script.now (device s array.old) (device result array.new) (on_line output.new driven.new) }
{
    let mut state = s;
    let mut at: usize = 0;
    let mut laid: usize = 0;
    // No `for`: an iterator over `front_at` would hand out refusals too, and here none can come.
    while let Some(found) = front_at(script, at).unwrap() {
        match found {
            Found::Frame {
                start,
                length,
                next,
            } => {
                let input = part_at(script, start, length);
                let end = laid + length;
                state = run_accepted(
                    state,
                    wp,
                    array,
                    input,
                    &mut output[laid..end],
                    &mut driven[laid..end],
                );
                laid = end;
                at = next;
            }
            Found::Wait { microseconds, next } => {
                state = time_passed(state, microseconds);
                at = next;
            }
        }
    }
    state
}
