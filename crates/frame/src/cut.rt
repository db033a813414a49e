// A frame interrupted by a power cut: the mask that it wants, and the registers that power-up finds.
ghost use Rattle.std.specs.Prelude.{◌≡◌};
ghost use Rattle.command.specs.Fits.{Fits};
ghost use Rattle.frame.specs.Cut.{is_status_cycle, takes_mask, state_cut};

use crate::effect_of;
use command::Command;
use state::State;

// The mask byte of a status write whose bits came to be, and that of one whose did not.
const NEW_BITS: u8 = 0xff;

const OLD_BITS: u8 = 0x00;

// A status write that takes time.
fn is_status_cycle(c: Command) -> bool
    ensures { result ≡ is_status_cycle c }
{
    match c {
        Command::WriteStatus { time, .. } => 0 < time,
        _ => false,
    }
}

// A status write that takes time has one mask byte, of two values; every other frame one for each array byte that it programs or erases.
pub fn takes_mask(c: Command, mask: &[u8]) -> bool
    ensures { result ≡ takes_mask c mask.now }
{
    if is_status_cycle(c) {
        return matches!(mask, [OLD_BITS | NEW_BITS]);
    }
    mask.len() == effect::mask_length(effect_of(c))
}

// The registers that power-up finds. No struct of state and command: a fact by cases, as `Fits`, is no plain field, and the clauses would say
// `taken.state` and `taken.command` for s and c.
pub fn state_cut(s: State, c: Command, mask: &[u8]) -> State
    requires { Fits s c }
    ensures { result ≡ state_cut s c mask.now }
{
    let t = registers::state_after(s, c);
    if is_status_cycle(c) && matches!(mask, [NEW_BITS, ..]) {
        state::time::cycle_ended(t)
    } else {
        t
    }
}
