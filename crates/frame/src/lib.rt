// Frames on a chip and its array: run, and interrupted by a power cut.
#![tactic(auto)]

pub mod accepted;
pub mod call;
mod cut;

ghost use Rattle.std.specs.Prelude.{◌≡◌};
ghost use Rattle.frame.specs.Effect.{effect_of};

use command::Command;
use effect::Effect;

// What a command does to the array.
fn effect_of(c: Command) -> Effect
    ensures { result ≡ effect_of c }
{
    match c {
        Command::Erase { start, count, .. } => Effect::Fill { start, count },
        Command::ProgramByte { address } => Effect::Program {
            start: address,
            count: 1,
            from: 4,
        },
        Command::ProgramPage { address, count } => effect::page_effect(address, count),
        Command::ProgramWord { address, from } => Effect::Program {
            start: address,
            count: 2,
            from,
        },
        _ => Effect::Keep,
    }
}
