// Time: a write cycle goes on, and ends.
ghost use Rattle.std.specs.Prelude.{◌≡◌};
ghost use Rattle.state.specs.Time.{cycle_ended, time_passed, pass_time};

use crate::{Answer, State};
use common::refusals::Refusal;

// The write cycle is over. WEL falls here and not when the frame ends; only AAI that can go on keeps it. The bits of a status write are seen from here on.
#[tactic(auto, unfolding(crate::specs::Time::cycle_ended))]
pub fn cycle_ended(s: State) -> State
    ensures { result ≡ cycle_ended s }
{
    let mut t = s;
    t.left = 0;
    if s.pending {
        t = crate::status::with_status_byte(t, s.pending_bits);
        t.pending = false;
        t.pending_bits = 0;
        t.wel = false;
        return t;
    }
    if s.aai {
        if s.next < crate::protection::first_protected(s) {
            return t;
        }
        t.aai = false;
        t.next = 0;
    }
    t.wel = false;
    t
}

#[tactic(auto, unfolding(crate::specs::Time::time_passed))]
pub fn time_passed(s: State, n: u32) -> State
    ensures { result ≡ time_passed s n }
{
    if n < s.left {
        State {
            left: s.left - n,
            ..s
        }
    } else if s.left == 0 {
        s
    } else {
        cycle_ended(s)
    }
}

// Let n microseconds pass.
#[tactic(auto, unfolding(crate::specs::Time::pass_time, crate::specs::Power::state_refusal))]
pub fn pass_time(s: State, n: u32) -> Answer
    ensures { result ≡ pass_time s n }
{
    if crate::soundness::is_sound(s) {
        crate::grant(time_passed(s, n))
    } else {
        crate::refuse(Refusal::StateNotSound.number(), s)
    }
}
