// The planner: from the bytes wanted in a region of the array to the script that programs them.
#![tactic(auto)]

mod status; // steps 1 and 4

ghost use Rattle.std.specs.Prelude.{◌≡◌, ◌||◌, [], ◌∷◌, ◌+◌, ◌≤◌, ltb, length, IfOk};
ghost use Rattle.common.specs.Refusals.{buffer_too_short, first_of, number_in};
ghost use Rattle.script.specs.Record.{encode};
ghost use Rattle.script.specs.Measure.{measure_of};
ghost use Rattle.common.specs.Buffer.{Put};
ghost use Rattle.plan.specs.Plan.{step_one_needed, plan_records};
ghost use Rattle.plan.specs.Refusals.{is_active, region_refusals, plan_refusal};
ghost use Rattle.common.specs.Limits.{longest_wanted};
ghost use Rattle.plan.specs.Update.{Scripted, PlanUpdated};

use common::limits::LONGEST_WANTED;
use common::refusals::Refusal;
use pages::Pages;
use region::{Program, Update};
use script::measure::Measure;
use state::soundness::check_chip;
use state::{Planned, State};
use words::Words;

// Whether a region has over 4,096 bytes or ends above the size.
fn region_exceeds(size: usize, start: usize, n: usize) -> bool
    ensures { result ≡ (ltb longest_wanted n || ltb size (start + n)) }
{
    match start.checked_add(n) {
        Some(end) => LONGEST_WANTED < n || size < end,
        None => true,
    }
}

// Not at rest: busy, in AAI or in power-down.
#[tactic(auto, unfolding(crate::specs::Refusals::is_active))]
fn is_active(s: State) -> bool
    ensures { result ≡ is_active s }
{
    0 < s.left || s.aai || s.power_down
}

// Refusals 1, 2, 6, 7 and 8, in this order.
fn check_update<'a>(
    s: State,
    array: &'a [u8],
    start: usize,
    wanted: &'a [u8],
) -> Result<Update<'a>, Refusal>
    ensures number { number_in result ≡ first_of (region_refusals s array.now start wanted.now) }
    ensures update { IfOk result (λ u. (u.array.now ≡ array.now) × (u.start ≡ start) × (u.wanted.now ≡ wanted.now)) }
{
    check_chip(s, array.len())?;
    if region_exceeds(array.len(), start, wanted.len()) {
        return Err(Refusal::WrongRegion);
    }
    if is_active(s) {
        return Err(Refusal::NotAtRest);
    }
    let update = Update {
        array,
        start,
        wanted,
    };
    if update.wants_rise() {
        return Err(Refusal::WantedRises);
    }
    Ok(update)
}

// An update that only the buffer's length can refuse any more.
#[derive(Clone, Copy)]
struct Plan<'a> {
    state: State,
    update: Update<'a>,
    // whether a byte that changes is protected, so that steps 1 and 4 are there
    needed: bool,
    ghost bp_bound: { state.bp ≤ 7 },
    ghost needed_is: { needed ≡ step_one_needed state update.array.now update.start update.wanted.now },
}

// In its methods P is the step between 1 and 4, by words or by pages, as the chip goes.
impl Plan<'_> {
    ghost use Rattle.plan.specs.Whole.{records_of, Programs};

    // What the whole plan amounts to.
    fn measure<P: Program>(&self) -> Measure
        requires { Programs P.records self.now }
        ensures { result ≡ measure_of (records_of self.now) }
    {
        let time = chip::chip_of(self.state.chip).status_time;
        status::with_status_steps(time, self.needed, P::measure(&self.update))
    }

    // The whole script, from the front of the buffer on; gives its length.
    fn put<P: Program>(&self, buffer: &mut [u8]) -> usize
        requires program { Programs P.records self.now }
        requires plan_in_bounds { length (encode (records_of self.now)) ≤ length buffer.old }
        ensures { Put 0 (encode (records_of self.now)) buffer.old buffer.new result }
    {
        let s = self.state;
        let unprotected = status::put_status(self.needed, s, 0, buffer, 0);
        let programmed = P::put(&self.update, buffer, unprotected);
        status::put_status(self.needed, s, s.bp, buffer, programmed)
    }

    // The whole script, measured and written, if the buffer has room for it.
    fn write<P: Program>(&self, buffer: &mut [u8]) -> Result<Measure, Refusal>
        requires { Programs P.records self.now }
        ensures { Scripted (first_of ((buffer_too_short, ltb (length buffer.old) (length (encode (records_of self.now)))) ∷ [])) (records_of self.now) buffer.old buffer.new result }
    {
        let m = self.measure::<P>();
        if buffer.len() < m.length as usize {
            return Err(Refusal::BufferTooShort);
        }
        self.put::<P>(buffer);
        Ok(m)
    }
}

// What the script amounts to, once it is written at the front of the buffer.
fn planned(
    s: State,
    wp: bool,
    array: &[u8],
    start: usize,
    wanted: &[u8],
    buffer: &mut [u8],
) -> Result<Measure, Refusal>
    ensures { Scripted (plan_refusal s wp array.now start wanted.now (length buffer.old)) (plan_records s array.now start wanted.now) buffer.old buffer.new result }
{
    let update = check_update(s, array, start, wanted)?;
    let needed = status::step_one_needed(s, &update);
    if needed && s.bpl && !wp {
        return Err(Refusal::StatusLocked);
    }
    let plan = Plan {
        state: s,
        update,
        needed,
    };
    if chip::chip_of(s.chip).word_plans {
        plan.write::<Words>(buffer)
    } else {
        plan.write::<Pages>(buffer)
    }
}

// Plan an update: the script that makes the bytes from `start` on as wanted, at the front of the buffer. No Result: C reads this struct.
pub fn plan_update(
    s: State,
    wp: bool,
    array: &[u8],
    start: usize,
    wanted: &[u8],
    buffer: &mut [u8],
) -> Planned
    ensures { PlanUpdated s wp array.now start wanted.now buffer.old buffer.new result }
{
    match planned(s, wp, array, start, wanted, buffer) {
        Ok(m) => Planned {
            number: 0,
            state: s,
            length: m.length,
            frames: m.frames,
            microseconds: m.microseconds,
        },
        Err(refusal) => state::refuse_plan(refusal.number(), s),
    }
}
