// The reader: what the record at an offset of a script is.
ghost use Rattle.std.specs.Prelude.{◌≡◌, ◌+◌, ◌≤◌, length, take, drop};
ghost use Rattle.common.specs.Limits.{longest_script};
ghost use Rattle.script.specs.Answers.{next_of};
ghost use Rattle.script.specs.Decode.{front_frame, front_wait, front};
ghost use Rattle.script.specs.Reader.{answer, found_in, frame_part, record_at, Answered};

use super::marks::{FRAME_MARK, SCRIPT_MARK, WAIT_MARK};
use common::limits::{LONGEST_FRAME, LONGEST_SCRIPT};
use common::refusals::Refusal;

// A record: the frame's place in the script or the wait, with the next offset. A frame is told by its start and length and not as
// a slice: C gets the place, and `part_at` gives the part.
#[derive(Clone, Copy, Debug, PartialEq, Eq)]
pub enum Found {
    Frame {
        start: usize,
        length: usize,
        next: usize,
    },
    Wait {
        microseconds: u32,
        next: usize,
    },
}

// What the reader answers at an offset: a record, none at the end, or a refusal; and the next offset, which is the given one at
// the end and with a refusal.
#[derive(Clone, Copy, Debug, PartialEq, Eq)]
pub struct AtOffset {
    pub read: Result<Option<Found>, Refusal>,
    pub next: usize,
}

// The record whose mark 5A 46 is at the offset, by the bytes behind the mark.
fn frame_at(bytes: &[u8], offset: usize) -> Result<Found, Refusal>
    requires { offset ≤ longest_script }
    ensures { found_in result ≡ answer offset (front_frame bytes.now) }
{
    let [high, low, rest @ ..] = bytes else {
        return Err(Refusal::CutShort);
    };
    let length = usize::from(u16::from_be_bytes([*high, *low]));
    if length < 1 || LONGEST_FRAME < length {
        return Err(Refusal::WrongLength);
    }
    if rest.len() < length {
        return Err(Refusal::CutShort);
    }
    let start = offset + 4;
    Ok(Found::Frame {
        start,
        length,
        next: start + length,
    })
}

// The record whose mark 5A 57 is at the offset, by the bytes behind the mark.
fn wait_at(bytes: &[u8], offset: usize) -> Result<Found, Refusal>
    requires { offset ≤ longest_script }
    ensures { found_in result ≡ answer offset (front_wait bytes.now) }
{
    let [a, b, c, d, ..] = bytes else {
        return Err(Refusal::CutShort);
    };
    Ok(Found::Wait {
        microseconds: u32::from_be_bytes([*a, *b, *c, *d]),
        next: offset + 6,
    })
}

// What stands at an offset of a script: a record by its mark, or none at the end. For loops over a script that have tested
// its length and stay inside it; `record_at` makes both tests itself. Script and offset are no struct: C hands both in, any offset
// with any script, and a loop changes the offset alone.
pub fn front_at(script: &[u8], offset: usize) -> Result<Option<Found>, Refusal>
    requires { (offset ≤ length script.now) × (length script.now ≤ longest_script) }
    ensures { result ≡ answer offset (front (drop offset script.now)) }
{
    match &script[offset..] {
        [] => Ok(None),
        // one byte is no mark yet, whatever it is
        [_] => Err(Refusal::CutShort),
        [SCRIPT_MARK, FRAME_MARK, bytes @ ..] => frame_at(bytes, offset).map(Some),
        [SCRIPT_MARK, WAIT_MARK, bytes @ ..] => wait_at(bytes, offset).map(Some),
        _ => Err(Refusal::UnknownMark),
    }
}

// What stands at an offset of any script, wherever the offset lies.
fn read_in_order(script: &[u8], offset: usize) -> Result<Option<Found>, Refusal>
    ensures { result ≡ record_at script.now offset }
{
    if LONGEST_SCRIPT < script.len() {
        return Err(Refusal::ScriptTooLong);
    }
    // a record that would begin past the end is cut short
    if script.len() < offset {
        return Err(Refusal::CutShort);
    }
    front_at(script, offset)
}

// The next offset, of what was read at this one.
fn next_of(read: Result<Option<Found>, Refusal>, offset: usize) -> usize
    ensures { result ≡ next_of offset read }
{
    match read {
        Ok(Some(Found::Frame { next, .. } | Found::Wait { next, .. })) => next,
        Ok(None) | Err(_) => offset,
    }
}

// The record at an offset of a script. It looks at this one record only.
pub fn record_at(script: &[u8], offset: usize) -> AtOffset
    ensures { Answered script.now offset result }
{
    let read = read_in_order(script, offset);
    AtOffset {
        read,
        next: next_of(read, offset),
    }
}

// A part of a script whose place is known, as `record_at` answers it for a frame.
pub fn part_at(script: &[u8], start: usize, count: usize) -> &[u8]
    requires { start + count ≤ length script.now }
    ensures { result.now ≡ take count (drop start script.now) }
{
    let end = start + count;
    &script[start..end]
}

// The frame of the record at an offset, as a part of the script. No Option: that the part is empty for a wait, the end and a
// refusal is what its contract promises, so an empty part says "no frame".
pub fn frame_part(script: &[u8], offset: usize) -> &[u8]
    ensures { result.now ≡ frame_part script.now offset }
{
    match record_at(script, offset).read {
        Ok(Some(Found::Frame { start, length, .. })) => part_at(script, start, length),
        Ok(Some(Found::Wait { .. }) | None) | Err(_) => &script[..0],
    }
}
