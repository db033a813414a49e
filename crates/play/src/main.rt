// Runs a script from standard input on a new, erased F25L05PA and prints what the chip showed (01, program `play`).
#![tactic(auto)]

ghost use Rattle.std.specs.Prelude.{◌≡◌, ◌+◌, ◌<◌, IfOk, length, take};
ghost use Rattle.std.specs.Io.{ReadsAtMost};
ghost use Rattle.std.specs.Io.KnownBytes.{Consumes, IsAtEnd};
ghost use Rattle.common.specs.Limits.{longest_script};

use common::limits::LONGEST_SCRIPT;
use listing::LONGEST_LISTING;
use std::io;
use std::io::{Read, Write};

// One byte more than the longest script has, so that a longer one is seen.
const SCRIPT_ROOM: usize = LONGEST_SCRIPT + 1;

// The room for the script: a function, so that a clause holds its length.
fn script_room() -> [u8; SCRIPT_ROOM]
    ensures { longest_script + 1 ≡ length result }
{
    [0; SCRIPT_ROOM]
}

// Read until the room is full or the input ends; gives how many bytes came.
// Nothing of std does that: `read_exact` fails on a shorter input, `read_to_end` needs the heap, `io::copy` tries an interrupted read again.
fn read_full<R: Read>(input: &mut R, room: &mut [u8]) -> io::Result<usize>
    ensures bound { ReadsAtMost result room.new }
    ensures bytes { IfOk result (λ n. Consumes (R.remaining input.old) (R.remaining input.new) (take n room.new)) }
    ensures end { IfOk result (λ n. n < length room.new → IsAtEnd (R.remaining input.new)) }
{
    let mut done = 0;
    while done < room.len() {
        let n = input.read(&mut room[done..])?;
        if n == 0 {
            break;
        }
        done += n;
    }
    Ok(done)
}

fn main(rt: HostRuntime) -> io::Result<()> {
    let mut script = script_room();
    let n = read_full(&mut rt.stdin(), &mut script)?;
    let mut text = [0; LONGEST_LISTING];
    let length = listing::listing(&script[..n], &mut text);
    rt.stdout().write_all(&text[..length])
}
