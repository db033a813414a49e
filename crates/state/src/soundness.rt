// "A state is sound when": the test that every call makes of the state it is given.
ghost use Rattle.std.specs.Prelude.{◌≡◌};
ghost use Rattle.common.specs.Refusals.{number_in, first_of};
ghost use Rattle.state.specs.Soundness.{all_of, register_clauses, aai_clauses, pending_clauses, is_sound, first_refusals};

use crate::State;
use common::refusals::Refusal;

fn registers_sound(s: State) -> bool
    ensures { result ≡ all_of (register_clauses s) }
{
    // Returns early: one conjunction of all clauses costs every frame 25 instructions more.
    if !chip::is_known(s.chip) || 7 < s.bp {
        return false;
    }
    let chip = chip::chip_of(s.chip);
    if 0 < s.left && (chip.chip_time < s.left || !s.wel || s.armed || s.power_down) {
        return false;
    }
    if s.armed && (s.power_down || !chip.ewsr && !s.wel) {
        return false;
    }
    (!s.tb || chip.top_bottom) && (!s.power_down || chip.sleeps) && (!s.aai || chip.aai)
}

fn aai_sound(s: State) -> bool
    ensures { result ≡ all_of (aai_clauses s) }
{
    if !s.aai {
        return s.next == 0;
    }
    let first = crate::protection::first_protected(s);
    s.wel
        && !s.armed
        && s.left <= 7
        && s.next % 2 == 0
        && 2 <= s.next
        && s.next <= first
        && (0 < s.left || s.next < first)
}

// A status write is pending only while it goes on, on a chip where it takes time.
fn pending_sound(s: State) -> bool
    ensures { result ≡ all_of (pending_clauses s) }
{
    if !s.pending {
        return s.pending_bits == 0;
    }
    0 < s.left
        && 0 < chip::chip_of(s.chip).status_time
        && s.pending_bits == crate::status::writable_bits(s.pending_bits)
}

#[tactic(auto, unfolding(crate::specs::Soundness::is_sound))]
pub fn is_sound(s: State) -> bool
    ensures { result ≡ is_sound s }
{
    registers_sound(s) && aai_sound(s) && pending_sound(s)
}

// What every call that is lent an array asks first, of the state and the array's length: 1 and 2.
pub fn check_chip(s: State, size: usize) -> Result<(), Refusal>
    ensures { number_in result ≡ first_of (first_refusals s size) }
{
    if !is_sound(s) {
        return Err(Refusal::StateNotSound);
    }
    if size != chip::chip_of(s.chip).size as usize {
        return Err(Refusal::WrongArray);
    }
    Ok(())
}
