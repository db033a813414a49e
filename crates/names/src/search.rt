// The records of a sector, searched for a name.
ghost use Rattle.names.specs.Search.{Searched};

use super::name::same;
use super::record::{HEAD, record_at};

// Where the record begins that has the name; if none has, where the records end.
pub fn find(bytes: &[u8], name: &[u8]) -> Result<usize, usize>
    ensures { Searched bytes.now name.now result }
{
    // No `for` over `records_of`: it gives names, and here the place is asked for.
    let mut at: usize = 0;
    while let Some(size) = record_at(bytes, at) {
        let end = at + size;
        let other = &bytes[at + HEAD..end];
        if same(name, other) {
            return Ok(at);
        }
        at = end;
    }
    Err(at)
}
