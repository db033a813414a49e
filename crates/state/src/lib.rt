// The chip while nothing is sent: its state, soundness, protection, power and time.
#![tactic(auto)]

pub mod power;
pub mod protection;
pub mod soundness;
pub mod status;
pub mod time;

ghost use Rattle.std.specs.Prelude.{◌≡◌};
ghost use Rattle.state.specs.Answer.{granted, refused, refused_plan};

// BUSY is "left above 0" and no field.
// C reads this struct: so the chip is a number and no enum, and what is pending a flag with bits and no Option.
#[repr(C)]
#[derive(Clone, Copy)]
pub struct State {
    // the chip's number
    pub chip: u8,
    // BP2 BP1 BP0 as a number
    pub bp: u8,
    pub tb: bool,
    pub bpl: bool,
    pub wel: bool,
    pub aai: bool,
    // a status write may come next
    pub armed: bool,
    // power-down
    pub power_down: bool,
    // a status write goes on, and sets these bits when its cycle ends: 2 to 5 and 7 of its byte
    pub pending: bool,
    pub pending_bits: u8,
    // microseconds until the write cycle ends
    pub left: u32,
    // where AAI goes on
    pub next: u32,
}

// A call's answer: 0 and the new state, or the refusal's number and the given one.
// No Result, here and in the two below: C reads these structs.
#[repr(C)]
#[derive(Clone, Copy)]
pub struct Answer {
    pub number: u32,
    pub state: State,
}

// A plan's answer: 0, the given state and what the script in the buffer amounts to; or the refusal's number, the given state and 0.
#[repr(C)]
#[derive(Clone, Copy)]
pub struct Planned {
    pub number: u32,
    pub state: State,
    pub length: u32,
    pub frames: u32,
    pub microseconds: u32,
}

// A question's answer: 0, the given state and 1 or 0, or how many; or the refusal's number, the given state and 0.
#[repr(C)]
#[derive(Clone, Copy)]
pub struct Told {
    pub number: u32,
    pub state: State,
    pub value: u32,
}

pub fn grant(state: State) -> Answer
    ensures { result ≡ granted state }
{
    Answer { number: 0, state }
}

// Refusals go in by number, here and below, as these structs carry them and as callers could always hand them in: a `Refusal` would take fewer.
pub fn refuse(number: u32, state: State) -> Answer
    ensures { result ≡ refused number state }
{
    Answer { number, state }
}

pub fn refuse_plan(number: u32, state: State) -> Planned
    ensures { result ≡ refused_plan number state }
{
    Planned {
        number,
        state,
        length: 0,
        frames: 0,
        microseconds: 0,
    }
}

pub fn tell(number: u32, state: State, value: u32) -> Told
    ensures { result ≡ record { number = number; state = state; value = value } }
{
    Told {
        number,
        state,
        value,
    }
}
