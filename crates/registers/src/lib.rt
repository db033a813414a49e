// The registers when the frame ends.
#![tactic(auto)]

ghost use Rattle.std.specs.Prelude.{◌≡◌};
ghost use Rattle.registers.specs.Registers.{state_after};
ghost use Rattle.command.specs.Fits.{Fits};

use command::Command;
use state::State;

// "Every taken frame clears armed too, but WREN and EWSR, which set it."
// No struct of state and command: a fact by cases, as `Fits`, is no plain field, and the clauses would say `taken.state` and `taken.command` for s and c.
#[tactic(auto, unfolding(crate::specs::Registers::state_after))]
pub fn state_after(s: State, c: Command) -> State
    requires { Fits s c }
    ensures { result ≡ state_after s c }
{
    let mut t = s;
    t.armed = false;
    match c {
        Command::WriteEnable => {
            t.wel = true;
            t.armed = true;
        }
        Command::WriteDisable => {
            t.wel = false;
            t.aai = false;
            t.next = 0;
        }
        Command::Arm => t.armed = true,
        Command::WriteStatus { byte, time } => {
            if time == 0 {
                t = state::status::with_status_byte(t, byte);
                t.wel = false;
            } else {
                t.left = time;
                t.pending = true;
                t.pending_bits = state::status::writable_bits(byte);
            }
        }
        Command::Erase { time, .. } => t.left = time,
        Command::ProgramByte { .. } => t.left = 7,
        Command::ProgramPage { .. } => t.left = 1500,
        Command::ProgramWord { address, .. } => {
            t.left = 7;
            t.aai = true;
            t.next = address + 2;
        }
        Command::Sleep => t.power_down = true,
        Command::ReadSignature => t.power_down = false,
        Command::Ignored => {}
        Command::ReadStatus
        | Command::ReadArray { .. }
        | Command::ReadJedec
        | Command::ReadIdentity(_) => {}
    }
    t
}
