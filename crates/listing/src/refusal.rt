// Why a script is refused, as one line.
ghost use Rattle.std.specs.Prelude.{◌≤◌, ◌<◌, length};
ghost use Rattle.common.specs.Buffer.{Put};
ghost use Rattle.text.specs.Text.{decimal_end};
ghost use Rattle.listing.specs.Listing.{why_refused};

use run::carries_offset;
use text::put_decimals_line;

// The number, and where it carries one the offset of the bad record.
// No `Refusal`: the answer of a run, which C reads, has the number.
pub(crate) fn put_refusal(number: u32, offset: usize, text: &mut [u8]) -> usize
    requires number_lt_decimal_end { number < decimal_end }
    requires offset_lt_decimal_end { offset < decimal_end }
    requires in_bounds { 14 ≤ length text.old }
    ensures { Put 0 (why_refused number offset) text.old text.new result }
{
    if carries_offset(number) {
        return put_decimals_line(b'R', &[number, offset as u32], text, 0);
    }
    put_decimals_line(b'R', &[number], text, 0)
}
