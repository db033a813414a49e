// One record: its reader and its writer.
ghost use Rattle.std.specs.Prelude.{◌≡◌, cond, ◌+◌, ◌≤◌, length, drop};
ghost use Rattle.common.specs.Buffer.{Put};
ghost use Rattle.names.specs.Records.{front, front_length, record_bytes};

use super::name::is_name;
use common::buffer::put;
use common::limits::ERASED;

// A record begins with these two bytes;
const FIRST_MARK: u8 = 0x4e;

const SECOND_MARK: u8 = 0x52;

// with the name's length they stand before the name.
pub const HEAD: usize = 3;

// How long the record at a place is, if a whole good one stands there.
pub fn record_at(bytes: &[u8], at: usize) -> Option<usize>
    requires { at ≤ length bytes.now }
    ensures { result ≡ front_length (front (drop at bytes.now)) }
{
    let [FIRST_MARK, SECOND_MARK, length, rest @ ..] = &bytes[at..] else {
        return None;
    };
    let name = rest.get(..usize::from(*length))?;
    is_name(name).then_some(HEAD + name.len())
}

fn marked_or_erased(marked: bool, byte: u8) -> u8
    ensures { result ≡ cond marked byte 0xff }
{
    if marked { byte } else { ERASED }
}

// Lays a name's record into the buffer from `at` on, with its mark or with FF in its place; gives the index behind it.
// `marked` chooses no step: it is what two of the bytes depend on, and `record_bytes` takes it too.
pub fn put_record(name: &[u8], marked: bool, buffer: &mut [u8], at: usize) -> usize
    requires { (length name.now ≤ 32) × (at + (3 + length name.now) ≤ length buffer.old) }
    ensures { Put at (record_bytes marked name.now) buffer.old buffer.new result }
{
    let first = marked_or_erased(marked, FIRST_MARK);
    let second = marked_or_erased(marked, SECOND_MARK);
    let start = put(&[first, second, name.len() as u8], buffer, at);
    put(name, buffer, start)
}
