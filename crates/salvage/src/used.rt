// What stands before the final erased stretch.
ghost use Rattle.std.specs.Prelude.{◌≡◌};
ghost use Rattle.salvage.specs.Pieces.{used_part};

use common::limits::ERASED;

pub fn used_part(sector: &[u8]) -> &[u8]
    ensures { result.now ≡ used_part sector.now }
{
    // No `rposition` of a byte that isn't FF: of its index or of none the slice would have to be made.
    let mut used = sector;
    while let [before @ .., ERASED] = used {
        used = before;
    }
    used
}
