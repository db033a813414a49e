// Records laid into a lent buffer, one behind the other.
ghost use Rattle.std.specs.Prelude.{◌+◌, ◌≤◌, length};
ghost use Rattle.script.specs.Record.{encode_record, frame, wait, frame_head};
ghost use Rattle.common.specs.Limits.{longest_frame};
ghost use Rattle.common.specs.Buffer.{Put};

use super::marks::{FRAME_MARK, SCRIPT_MARK, WAIT_MARK};
use common::buffer::put;

// 5A 46 and a frame's length.
pub fn put_head(n: usize, buffer: &mut [u8], at: usize) -> usize
    requires n_le_longest_frame { n ≤ longest_frame }
    requires at_in_bounds { at + 4 ≤ length buffer.old }
    ensures { Put at (frame_head n) buffer.old buffer.new result }
{
    let [high, low] = (n as u16).to_be_bytes();
    put(&[SCRIPT_MARK, FRAME_MARK, high, low], buffer, at)
}

// A frame's record.
pub fn put_frame(bytes: &[u8], buffer: &mut [u8], at: usize) -> usize
    requires bytes_len_bound { length bytes.now ≤ longest_frame }
    requires bytes_in_bounds { at + length (encode_record (frame bytes.now)) ≤ length buffer.old }
    ensures { Put at (encode_record (frame bytes.now)) buffer.old buffer.new result }
{
    let headed = put_head(bytes.len(), buffer, at);
    put(bytes, buffer, headed)
}

// A wait's record.
pub fn put_wait(microseconds: u32, buffer: &mut [u8], at: usize) -> usize
    requires { at + length (encode_record (wait microseconds)) ≤ length buffer.old }
    ensures { Put at (encode_record (wait microseconds)) buffer.old buffer.new result }
{
    let [a, b, c, d] = microseconds.to_be_bytes();
    put(&[SCRIPT_MARK, WAIT_MARK, a, b, c, d], buffer, at)
}
