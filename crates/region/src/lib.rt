// The region of an update: what is wanted at each address, and which bytes change; and `Program`, a plan's step that programs them.
#![tactic(auto)]

mod program;

ghost use Rattle.std.specs.Prelude.{◌≡◌, ◌+◌, ◌≤◌, ◌<◌, length};
ghost use Rattle.region.specs.Region.{Inside, wanted_at, changes, wants_rise};

use common::limits::ERASED;
pub use program::Program;

// The bytes wanted from `start` on, and the array that they are to stand in.
#[derive(Clone, Copy)]
pub struct Update<'a> {
    pub array: &'a [u8],
    pub start: usize,
    pub wanted: &'a [u8],
    pub ghost inside: { Inside array.now start wanted.now },
}

impl Update<'_> {
    // The address behind the region's last byte.
    pub fn end(&self) -> usize
        ensures { result ≡ self.now.start + length self.now.wanted.now }
    {
        self.start + self.wanted.len()
    }

    // The byte wanted at an address: FF outside the region.
    pub fn wanted_at(&self, address: usize) -> u8
        ensures { result ≡ wanted_at self.now.start self.now.wanted.now address }
    {
        wanted_at(self.start, self.wanted, address)
    }

    // Whether a byte of the region is not yet as wanted.
    pub fn differs(&self, address: usize) -> bool
        requires { (self.now.start ≤ address) × (address < self.now.start + length self.now.wanted.now) }
        ensures { result ≡ changes self.now.array.now self.now.start self.now.wanted.now address }
    {
        self.array[address] != self.wanted[address - self.start]
    }

    // Whether the byte at an address is one of the region and not yet as wanted.
    pub fn changes(&self, address: usize) -> bool
        ensures { result ≡ changes self.now.array.now self.now.start self.now.wanted.now address }
    {
        self.start <= address && address < self.end() && self.differs(address)
    }

    // Whether a 1 is wanted where the array has 0: only an erase could give it.
    pub fn wants_rise(&self) -> bool
        ensures { result ≡ wants_rise self.now.array.now self.now.start self.now.wanted.now }
    {
        let old = &self.array[self.start..self.end()];
        old.iter()
            .zip(self.wanted)
            .any(|(old, new)| old & new != *new)
    }
}

// The same of any region, wherever it lies: public as it was, and it asks nothing of an array.
pub fn wanted_at(start: usize, wanted: &[u8], address: usize) -> u8
    ensures { result ≡ wanted_at start wanted.now address }
{
    if address < start {
        return ERASED;
    }
    wanted.get(address - start).copied().unwrap_or(ERASED)
}
