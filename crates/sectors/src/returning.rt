// From a sector of names back to a book: the scenes of the list that a record names.
ghost use Rattle.std.specs.Prelude.{◌≡◌, false, length};
ghost use Rattle.common.specs.Bits.{Bytes};
ghost use Rattle.names.specs.Records.{names_of};
ghost use Rattle.namelist.specs.Listed.{listed, names_in};
ghost use Rattle.namelist.specs.Twice.{is_twice};
ghost use Rattle.book.specs.Book.{marked};
ghost use Rattle.sectors.specs.Moves.{listed_scenes, unlisted};

use book::marking::mark_scene;
use book::sizes::USED;
use namelist::list::NameList;
use names::records::records_of;

// Marks the scenes that the records name; gives how many records have a name that is not on the list. `image` is a slice, as for `append`.
pub fn mark_listed(image: &[u8], names: &NameList, used: &mut [u8; USED]) -> u32
    requires { (length image.now ≡ 4096) × (is_twice (names_in (listed names.now.bytes.now)) ≡ false) × Bytes used.old }
    ensures { (used.new ≡ marked (listed_scenes 0 (names_in (listed names.now.bytes.now)) (names_of image.now)) used.old) × (result ≡ unlisted (names_in (listed names.now.bytes.now)) (names_of image.now)) }
{
    let mut unlisted: u32 = 0;
    for name in records_of(image) {
        match names.position_of(name) {
            Some(scene) => mark_scene(scene as u32, used),
            None => unlisted += 1,
        }
    }
    unlisted
}
