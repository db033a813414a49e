// Steps 1 and 4: the protection bits taken away and put back, by two frames each, and a wait where a status write takes time.
ghost use Rattle.std.specs.Prelude.{◌≡◌, cond, ◌+◌, ◌≤◌, length};
ghost use Rattle.script.specs.Record.{encode};
ghost use Rattle.state.specs.State.{data_of};
ghost use Rattle.common.specs.Buffer.{Put};
ghost use Rattle.common.specs.Limits.{longest_script};
ghost use Rattle.plan.specs.Plan.{step_one_needed, status_byte, status_step, wait_bytes, with_status_steps};

use region::Update;
use script::measure::Measure;
use state::State;

// Whether a byte that changes is protected: whether the protected part of the region is not yet as wanted.
pub fn step_one_needed(s: State, update: &Update) -> bool
    ensures { result ≡ step_one_needed s update.now.array.now update.now.start update.now.wanted.now }
{
    let first = state::protection::first_protected(s) as usize;
    let end = update.end();
    let from = first.max(update.start).min(end);
    update.array[from..end] != update.wanted[from - update.start..]
}

// The frame before a status write.
fn arming(s: State) -> u8
    ensures { result ≡ cond (data_of s).ewsr 0x50 0x06 }
{
    if chip::chip_of(s.chip).ewsr {
        0x50
    } else {
        0x06
    }
}

#[tactic(auto, unfolding(crate::specs::Plan::status_byte))]
fn status_byte(bp: u8, tb: bool, bpl: bool) -> u8
    requires { bp ≤ 7 }
    ensures { result ≡ status_byte bp tb bpl }
{
    bp * 4 + common::bit_of(tb, 32) + common::bit_of(bpl, 128)
}

// The frames of step 1 or 4, with the protection bits `bp`. `needed` is no choice between two steps: it says whether this one is there at all.
pub fn put_status(needed: bool, s: State, bp: u8, buffer: &mut [u8], at: usize) -> usize
    requires bp_bound { bp ≤ 7 }
    requires bp_in_bounds { at + length (encode (status_step needed s bp)) ≤ length buffer.old }
    ensures { Put at (encode (status_step needed s bp)) buffer.old buffer.new result }
{
    if !needed {
        return at;
    }
    let armed = script::writer::put_frame(&[arming(s)], buffer, at);
    let sent = script::writer::put_frame(&[0x01, status_byte(bp, s.tb, s.bpl)], buffer, armed);
    let time = chip::chip_of(s.chip).status_time;
    if time == 0 {
        return sent;
    }
    script::writer::put_wait(time, buffer, sent)
}

// The bytes of the wait behind a status write, where it takes time.
fn wait_bytes(time: u32) -> u32
    ensures { result ≡ wait_bytes time }
{
    if 0 < time { 6 } else { 0 }
}

// With steps 1 and 4 around it, if they are there at all: two frames each, of one and two bytes, and a wait.
pub fn with_status_steps(time: u32, needed: bool, m: Measure) -> Measure
    requires { (m.length ≤ longest_script) × (m.frames ≤ longest_script) × (m.microseconds ≤ longest_script) × (time ≤ 90000) }
    ensures { result ≡ with_status_steps time needed m }
{
    if needed {
        Measure {
            length: m.length + 22 + 2 * wait_bytes(time),
            frames: m.frames + 4,
            microseconds: m.microseconds + 2 * time,
        }
    } else {
        m
    }
}
