// From a book to a sector of names: the records of the read scenes, in list order.
ghost use Rattle.std.specs.Prelude.{◌≡◌, [], length};
ghost use Rattle.names.specs.Records.{padded};
ghost use Rattle.sectors.specs.Laid.{ReadPut, MoveLaid};

use crate::image::is_missing;
use book::telling::Book;
use common::limits::SECTOR;
use common::refusals::Refusal;
use namelist::list::NameList;
use names::record::{HEAD, put_record};

// Lays the records of the read scenes, with their marks or with FF in their place; gives their length. None: they don't fit.
// `marked` chooses no step here: it is handed on to each record.
fn put_read(book: &Book, names: &NameList, marked: bool, wanted: &mut [u8; SECTOR]) -> Option<usize>
    ensures { ReadPut book.now.array.now book.now.sector names.now.bytes.now marked wanted.old wanted.new result }
{
    let mut end: usize = 0;
    for (scene, name) in names.iter().enumerate() {
        let read = book.scene_read(scene as u32);
        if read {
            if SECTOR - end < HEAD + name.len() {
                return None;
            }
            end = put_record(name, marked, wanted, end);
        }
    }
    Some(end)
}

// The sector as a move wants it, unless the records don't fit. `image` is a slice, as for `append`.
pub fn lay_move(
    book: &Book,
    names: &NameList,
    image: &[u8],
    wanted: &mut [u8; SECTOR],
) -> Result<(), Refusal>
    requires { (wanted.old ≡ padded []) × (length image.now ≡ 4096) }
    ensures { MoveLaid book.now.array.now book.now.sector names.now.bytes.now image.now wanted.new result }
{
    let end = put_read(book, names, false, wanted).ok_or(Refusal::RecordsTooLong)?;
    if !is_missing(&wanted[..end], image) {
        put_read(book, names, true, wanted);
    }
    Ok(())
}
