// What program `play` prints of a script (01): what its frames show and the status, or why it is refused and where.
#![tactic(auto)]

mod frames;
mod refusal;

ghost use Rattle.std.specs.Prelude.{◌≡◌, length};
ghost use Rattle.common.specs.Buffer.{Put};
ghost use Rattle.listing.specs.Listing.{listing};

use common::limits::{ERASED, LONGEST_SCRIPT};

// A frame of n bytes takes 4 + n bytes of the script and 2 n + 3 characters; the last line has 5.
pub const LONGEST_LISTING: usize = 2 * LONGEST_SCRIPT + 5;

// Write the listing of a script at the front of the text; gives its length.
#[tactic(auto, using(crate::proofs::Laws::Listing::output_small))]
pub fn listing(script: &[u8], text: &mut [u8; LONGEST_LISTING]) -> usize
    ensures { Put 0 (listing script.now) text.old text.new result }
{
    let survey = script::survey::survey_of(script);
    // a new F25L05PA's bytes, and room for what the frames show, which is no longer than the script
    let mut array = [ERASED; 65536];
    let mut output = [0; LONGEST_SCRIPT];
    let mut driven = [0; LONGEST_SCRIPT];
    let ran = run::run_script(
        state::power::new_chip(5).state,
        true,
        &mut array,
        script,
        &mut output[..survey.output],
        &mut driven[..survey.output],
    );
    // No `Result`: C reads what a run answers.
    if ran.number != 0 {
        return refusal::put_refusal(ran.number, ran.offset, text);
    }
    let last_line = frames::put_frame_lines(
        script,
        &output[..survey.output],
        &driven[..survey.output],
        text,
    );
    text::put_hex_line(
        b'S',
        &[state::status::status_of(ran.state)],
        text,
        last_line,
    )
}
