// The records of a sector, one after another, by their names.
ghost use Rattle.std.specs.Prelude.{◌≡◌};
ghost use Rattle.std.specs.Iterator.{YieldsFirstRef, item_count};
ghost use Rattle.names.specs.Records.{names_of};

use super::record::{HEAD, record_at};

// The bytes from the next record on.
#[derive(Clone, Copy)]
pub struct Records<'a> {
    left: &'a [u8],
}

pub fn records_of(bytes: &[u8]) -> Records<'_>
    ensures { names_of result.left.now ≡ names_of bytes.now }
{
    Records { left: bytes }
}

impl<'a> Iterator for Records<'a> {
    type Item = &'a [u8];

    ghost next_gives = { YieldsFirstRef (λ records. names_of records.left.now) };

    ghost remaining = { item_count (λ records. names_of records.left.now) };

    fn next(&mut self) -> Option<&'a [u8]> {
        let size = record_at(self.left, 0)?;
        let (record, behind) = self.left.split_at(size);
        self.left = behind;
        Some(&record[HEAD..])
    }
}
