// Which addresses are protected: those from the first protected one up, by the level, the bits BP2 BP1 BP0 as one number.
ghost use Rattle.std.specs.Prelude.{◌≡◌, get_or};
ghost use Rattle.state.specs.Protection.{first_protected_by_level, first_protected};

use crate::State;

// The F25L008A's bytes.
const SIZE: u32 = 0x100000;

// A block's; the chip has sixteen.
const BLOCK: u32 = 0x10000;

// The F25L008A. Level 000 protects nothing: the answer is the size. 001 protects the upper block, and each further level double the one
// below: 010 two blocks, 011 four, 100 eight, and 101 all sixteen, from address 0. 110 and 111 protect no more than everything.
// A level over 7 is none of the chip's, and no sound state has it; the answer there is 0.
#[tactic(auto, using(crate::proofs::Laws::Protection::level_part, crate::proofs::Laws::Protection::level_shift))]
fn first_by_level(level: u8) -> u32
    ensures { result ≡ get_or first_protected_by_level level 0 }
{
    match level {
        0 => SIZE,
        1..=5 => SIZE - (BLOCK << (level - 1)),
        _ => 0,
    }
}

#[tactic(auto, unfolding(crate::specs::Protection::first_protected))]
pub fn first_protected(s: State) -> u32
    ensures { result ≡ first_protected s }
{
    let chip = chip::chip_of(s.chip);
    if chip.graded {
        return first_by_level(s.bp);
    }
    // all or nothing, by BP1 and BP0; BP2 and TB don't matter
    if s.bp % 4 == 0 { chip.size } else { 0 }
}
