// A sick name sector: each whole good record is kept, and everything else is listed as dropped.
#![tactic(auto)]

mod pieces; // the walks
mod used; // what stands before the final erased stretch

ghost use Rattle.std.specs.Prelude.{◌≡◌};
ghost use Rattle.common.specs.Refusals.{number_of};
ghost use Rattle.salvage.specs.Answers.{refused_salvage, Salvages};

use common::limits::{ERASED, SECTOR};
use common::refusals::Refusal;

// `length` is of the list of dropped stretches, `kept` of the kept records, in bytes; both are 0 with a refusal. No Result: C reads this struct.
#[repr(C)]
#[derive(Clone, Copy)]
pub struct Salvaged {
    pub number: u32,
    pub length: u32,
    pub kept: u32,
}

// As `state::refuse`, of a struct of its own that C reads.
fn refuse(refusal: Refusal) -> Salvaged
    ensures { result ≡ refused_salvage (number_of refusal) }
{
    Salvaged {
        number: refusal.number(),
        length: 0,
        kept: 0,
    }
}

// The kept records go to the front of `kept`, FF behind them, and the list of dropped stretches to the front of `dropped`. It is measured first, so that
// a refusal finds both as they were.
pub fn salvage(sector: &[u8], kept: &mut [u8], dropped: &mut [u8]) -> Salvaged
    ensures { Salvages sector.now kept.old dropped.old kept.new dropped.new result }
{
    if (sector.len() != SECTOR) | (kept.len() != SECTOR) {
        return refuse(Refusal::WrongArray);
    }
    let used = used::used_part(sector);
    let length = pieces::list_length(used);
    if dropped.len() < length {
        return refuse(Refusal::BufferTooShort);
    }
    let size = pieces::put_pieces(used, kept, dropped);
    common::runs::fill_run(kept, size, SECTOR, ERASED);
    Salvaged {
        number: 0,
        length: length as u32,
        kept: size as u32,
    }
}
