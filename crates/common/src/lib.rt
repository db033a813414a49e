// What every layer uses: bytes of a slice, read without a fault at any index, runs of them, and numbers as bytes.
#![tactic(auto)]

pub mod buffer;
pub mod limits;
pub mod refusals;
pub mod runs;

ghost use Rattle.std.specs.Prelude.{◌≡◌, ◌≤◌, get_or};
ghost use Rattle.common.specs.Bits.{bit};
ghost use Rattle.common.specs.Numbers.{address_bytes};

// The byte at an index, 0 past the end.
pub fn byte_at(bytes: &[u8], i: usize) -> u8
    ensures { result ≡ get_or bytes.now i 0 }
{
    bytes.get(i).copied().unwrap_or(0)
}

// A bit of the given value where it is set, else 0.
pub fn bit_of(set: bool, value: u8) -> u8
    ensures { (result ≡ bit set value) × (result ≤ value) }
{
    if set { value } else { 0 }
}

// An address as three bytes, high byte first.
pub fn address_bytes(address: usize) -> [u8; 3]
    ensures { result ≡ address_bytes address }
{
    let [.., high, middle, low] = address.to_be_bytes();
    [high, middle, low]
}
