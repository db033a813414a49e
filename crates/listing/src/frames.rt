// One line a frame.
ghost use Rattle.std.specs.Prelude.{◌≡◌, ◌*◌, ◌≤◌, length};
ghost use Rattle.common.specs.Limits.{longest_script};
ghost use Rattle.script.specs.Survey.{survey_of};
ghost use Rattle.script.specs.Decode.{records_of};
ghost use Rattle.common.specs.Buffer.{Put};
ghost use Rattle.frame.specs.Line.{on_line, Long};
ghost use Rattle.listing.specs.Listing.{cut_lines};

use script::reader::{Found, front_at};
use text::put_shown_line;

// The script has been run, so none of its records is refused, and what its frames showed lies one after another, in both slices:
// they come as C lends them, so they are no struct.
pub(crate) fn put_frame_lines(script: &[u8], output: &[u8], driven: &[u8], text: &mut [u8]) -> usize
    requires script_value { (survey_of script.now).number ≡ 0 }
    requires long { Long (survey_of script.now).output (on_line output.now driven.now) }
    requires longest_script_in_bounds { 2 * longest_script ≤ length text.old }
    ensures { Put 0 (cut_lines (records_of script.now) (on_line output.now driven.now)) text.old text.new result }
{
    let mut at: usize = 0;
    let mut shown: usize = 0;
    let mut next_line: usize = 0;
    // No `for`: an iterator over `front_at` would hand out refusals too, and here none can come.
    while let Some(found) = front_at(script, at).unwrap() {
        match found {
            Found::Frame { length, next, .. } => {
                let end = shown + length;
                next_line = put_shown_line(
                    b'F',
                    &output[shown..end],
                    &driven[shown..end],
                    text,
                    next_line,
                );
                shown = end;
                at = next;
            }
            Found::Wait { next, .. } => at = next,
        }
    }
    next_line
}
