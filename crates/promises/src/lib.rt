// The planner as the layers above see it: its call, under the statement that they may cite.
#![tactic(auto)]

ghost use Rattle.promises.specs.Promises.{Plans};

use state::{Planned, State};

// Plan an update: the script that makes the bytes from `start` on as wanted, at the front of the buffer.
pub fn plan_update(
    s: State,
    wp: bool,
    array: &[u8],
    start: usize,
    wanted: &[u8],
    buffer: &mut [u8],
) -> Planned
    ensures { Plans s wp array.now start wanted.now buffer.old buffer.new result }
{
    plan::plan_update(s, wp, array, start, wanted, buffer)
}
