// The chips: all that differs between them. A chip is a file with its data and its table of 256 kinds of instructions.
#![tactic(auto)]

mod f25l008a;
mod f25l05pa;
pub mod kinds;

ghost use Rattle.std.specs.Prelude.{◌≡◌};
ghost use Rattle.chip.specs.Chip.{is_known, chip_of, kind_of};

use kinds::Kind;

#[derive(Clone, Copy)]
pub struct Chip {
    // bytes of the array
    pub size: u32,
    // 9F answers 8C, family, capacity
    pub family: u8,
    pub capacity: u8,
    // AB's signature, after so many silent bytes
    pub signature: u8,
    pub preamble: u8,
    // 90 answers 8C and this
    pub device_id: u8,
    // microseconds of a block erase and of a chip erase; nothing takes longer than the latter
    pub block_time: u32,
    pub chip_time: u32,
    // microseconds of a status write; 0 where it is done at once, and no Option, since it is added up as it is
    pub status_time: u32,
    // AD programs words (AAI)
    pub aai: bool,
    // plans go by words, else by pages
    pub word_plans: bool,
    // 50 arms a status write without WEL
    pub ewsr: bool,
    // B9 powers it down
    pub sleeps: bool,
    // the status register has TB
    pub top_bottom: bool,
    // protected from some address up, by level; else all or nothing
    pub graded: bool,
    // BP of a new chip
    pub new_level: u8,
    // BP, TB and BPL are kept without power
    pub keeps: bool,
}

// Of an unknown number: the F25L05PA. No enum for the number: C hands in any, and each has a chip here.
#[tactic(auto, unfolding(crate::specs::Chip::chip_of))]
pub fn chip_of(number: u8) -> Chip
    ensures { result ≡ chip_of number }
{
    if number == 8 {
        f25l008a::DATA
    } else {
        f25l05pa::DATA
    }
}

#[tactic(auto, unfolding(crate::specs::Chip::is_known))]
pub fn is_known(number: u8) -> bool
    ensures { result ≡ is_known number }
{
    number == 8 || number == 5
}

// The opcode's kind on the chip of a number. "One constant table per chip" (01), so the choice stands here as in `chip_of`, for a table in place of data.
pub fn kind_of(number: u8, op: u8) -> Kind
    ensures { result ≡ kind_of number op }
{
    if number == 8 {
        f25l008a::KINDS[usize::from(op)]
    } else {
        f25l05pa::KINDS[usize::from(op)]
    }
}
