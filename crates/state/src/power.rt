// A new chip, and a chip powered up again.
ghost use Rattle.std.specs.Prelude.{◌≡◌};
ghost use Rattle.state.specs.Power.{at_rest, new_state, new_chip, powered_up, power_up};

use crate::{Answer, State};
use common::refusals::Refusal;

// Nothing going on: only the chip and its protection bits.
fn at_rest(chip: u8, bp: u8, tb: bool, bpl: bool) -> State
    ensures { result ≡ at_rest chip bp tb bpl }
{
    State {
        chip,
        bp,
        tb,
        bpl,
        wel: false,
        aai: false,
        armed: false,
        power_down: false,
        pending: false,
        pending_bits: 0,
        left: 0,
        next: 0,
    }
}

#[tactic(auto, unfolding(crate::specs::Power::new_state))]
fn new_state(chip: u8) -> State
    ensures { result ≡ new_state chip }
{
    at_rest(chip, chip::chip_of(chip).new_level, false, false)
}

// Make a new chip. Of an unknown number there is none: refusal 1 comes with a new F25L05PA.
#[tactic(auto, unfolding(crate::specs::Power::new_chip))]
pub fn new_chip(number: u8) -> Answer
    ensures { result ≡ new_chip number }
{
    if chip::is_known(number) {
        crate::grant(new_state(number))
    } else {
        crate::refuse(Refusal::StateNotSound.number(), new_state(5))
    }
}

// The state after power-off and power-up: bits that were pending are lost.
#[tactic(auto, unfolding(crate::specs::Power::powered_up))]
pub fn powered_up(s: State) -> State
    ensures { result ≡ powered_up s }
{
    if chip::chip_of(s.chip).keeps {
        at_rest(s.chip, s.bp, s.tb, s.bpl)
    } else {
        new_state(s.chip)
    }
}

// Power the chip up again. `time::pass_time` asks the same of its state; what either does with it is two lines.
#[tactic(auto, unfolding(crate::specs::Power::power_up, crate::specs::Power::state_refusal))]
pub fn power_up(s: State) -> Answer
    ensures { result ≡ power_up s }
{
    if crate::soundness::is_sound(s) {
        crate::grant(powered_up(s))
    } else {
        crate::refuse(Refusal::StateNotSound.number(), s)
    }
}
