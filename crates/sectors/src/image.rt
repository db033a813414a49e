// A sector of names as it is to be: records behind those that are there, first without their marks and then with them.
ghost use Rattle.std.specs.Prelude.{◌≡◌, [], ◌∷◌, ◌+◌, ◌≤◌, length, take};
ghost use Rattle.names.specs.Records.{padded};
ghost use Rattle.sectors.specs.Images.{is_missing, wanted_names};

use common::buffer::put;
use common::limits::{ERASED, SECTOR};
use names::record::put_record;

pub fn blank() -> [u8; SECTOR]
    ensures { result ≡ padded [] }
{
    [ERASED; SECTOR]
}

// Whether a byte that is wanted and not FF is not there yet.
pub fn is_missing(wanted: &[u8], there: &[u8]) -> bool
    ensures { result ≡ is_missing wanted.now there.now }
{
    wanted
        .iter()
        .zip(there)
        .any(|(&byte, &here)| (byte != ERASED) & (byte != here))
}

// One record behind the `end` bytes that are there. `image` is no `&[u8; SECTOR]`: callers hand in a part of the array, which is 4,096 bytes long, but
// its type doesn't say so.
pub fn append(image: &[u8], end: usize, name: &[u8], wanted: &mut [u8; SECTOR])
    requires { (wanted.old ≡ padded []) × (length image.now ≡ 4096) × (length name.now ≤ 32) × (end + (3 + length name.now) ≤ 4096) }
    ensures { wanted.new ≡ wanted_names image.now (take end image.now) (name.now ∷ []) }
{
    put(&image[..end], wanted, 0);
    let behind = put_record(name, false, wanted, end);
    if !is_missing(&wanted[end..behind], &image[end..]) {
        put_record(name, true, wanted, end);
    }
}
