// The status register: as 05 shows it, and as 01 writes it.
ghost use Rattle.std.specs.Prelude.{◌≡◌, ◌<◌};
ghost use Rattle.state.specs.Status.{status_of, has, writable_bits, with_status_byte};

use crate::State;

// By bit_of, as a plan writes the register: the bit's value stands beside it.
#[tactic(auto, unfolding(crate::specs::Status::status_of))]
pub fn status_of(s: State) -> u8
    ensures { result ≡ status_of s }
{
    let chip = chip::chip_of(s.chip);
    common::bit_of(0 < s.left, 1)
        + common::bit_of(s.wel, 2)
        + s.bp % 8 * 4
        + common::bit_of(chip.top_bottom & s.tb, 32)
        + common::bit_of(chip.aai & s.aai, 64)
        + common::bit_of(s.bpl, 128)
}

// By division, as the definition `has` says it; the compiler makes a test of the bit.
fn has_bit(byte: u8, value: u8) -> bool
    requires { 0 < value }
    ensures { result ≡ has byte value }
{
    byte / value % 2 == 1
}

// A byte's bits 2 to 5 and 7.
pub fn writable_bits(byte: u8) -> u8
    ensures { result ≡ writable_bits byte }
{
    byte / 4 % 16 * 4 + byte / 128 % 2 * 128
}

// The bits that a status write sets, from its byte.
pub fn with_status_byte(s: State, byte: u8) -> State
    ensures { result ≡ with_status_byte s byte }
{
    State {
        bp: byte / 4 % 8,
        tb: chip::chip_of(s.chip).top_bottom & has_bit(byte, 32),
        bpl: has_bit(byte, 128),
        ..s
    }
}
