// The output: what the chip shows, byte by byte, and which of the bytes it drives. What it shows is `Some` byte that it drives, or `None`, where it is
// silent. A driven FF is not a silent byte, though both read FF.
#![tactic(auto)]

ghost use Rattle.std.specs.Prelude.{◌≡◌, ℕ, ◌<◌, ◌≤◌, length};
ghost use Rattle.common.specs.Lists.{tab};
ghost use Rattle.common.specs.Limits.{longest_frame};
ghost use Rattle.state.specs.State.{data_of};
ghost use Rattle.output.specs.Output.{byte_of, driven_of, memory, since, read_at, jedec, identity, shown_at};
ghost use Rattle.output.specs.Runs.{NoRead, SameFrom};
ghost use Rattle.command.specs.Fits.{Fits};

use command::Command;
use state::State;

// The byte that is read: a silent line is pulled up.
fn byte_of(shown: Option<u8>) -> u8
    ensures { result ≡ byte_of shown }
{
    shown.unwrap_or(0xff)
}

// 01 where the chip drove it, else 00.
fn driven_of(shown: Option<u8>) -> u8
    ensures { result ≡ driven_of shown }
{
    u8::from(shown.is_some())
}

fn jedec_byte(family: u8, capacity: u8, i: usize) -> Option<u8>
    ensures { result ≡ jedec family capacity i }
{
    match i {
        1 => Some(0x8c),
        2 => Some(family),
        3 => Some(capacity),
        _ => None, // from byte 4 on
    }
}

fn identity_byte(device: u8, odd: bool, i: usize) -> u8
    ensures { result ≡ identity device odd i }
{
    if i % 2 == 0 {
        if odd { device } else { 0x8c }
    } else {
        if odd { 0x8c } else { device }
    }
}

// Byte i of a command that does not read the array, which `emit` has sorted out; a type for such commands would be made there and taken apart here.
// The chip's data is fetched in the arms that use it.
#[tactic(auto, unfolding(crate::specs::Output::shown_at))]
fn shown_at(s: State, c: Command, i: usize) -> Option<u8>
    requires { NoRead c }
    ensures { (m : ℕ → ℕ) → result ≡ shown_at s c m i }
{
    match c {
        Command::ReadStatus => {
            if i < 1 {
                None
            } else {
                Some(state::status::status_of(s))
            }
        }
        Command::ReadJedec => {
            let chip = chip::chip_of(s.chip);
            jedec_byte(chip.family, chip.capacity, i)
        }
        Command::ReadSignature => {
            let chip = chip::chip_of(s.chip);
            if i < usize::from(chip.preamble) {
                None
            } else {
                Some(chip.signature)
            }
        }
        Command::ReadIdentity(odd) => {
            if i < 4 {
                None
            } else {
                Some(identity_byte(chip::chip_of(s.chip).device_id, odd, i))
            }
        }
        _ => None, // no other command reads
    }
}

// How many bytes have to be looked at one by one: all where they go by turns, the first four of another answer, and none of a silent frame.
fn changing(c: Command, count: usize) -> usize
    requires { NoRead c }
    ensures { (result ≤ count) × SameFrom c result count }
{
    match c {
        Command::ReadIdentity(_) => count,
        Command::ReadStatus | Command::ReadJedec | Command::ReadSignature => count.min(4),
        _ => 0,
    }
}

// One by one, and from where they no longer change in a run: most frames are silent, and some are long. By index: behind two `iter_mut` in a zip a proof knows no byte.
fn show_each(s: State, c: Command, output: &mut [u8], driven: &mut [u8])
    requires { NoRead c × (length driven.old ≡ length output.old) }
    ensures { (m : ℕ → ℕ) → (output.new ≡ tab (length output.old) (λ i. byte_of (shown_at s c m i))) × (driven.new ≡ tab (length output.old) (λ i. driven_of (shown_at s c m i))) }
{
    let count = output.len();
    let to = changing(c, count);
    for i in 0..count {
        let shown = shown_at(s, c, i);
        if i == to {
            common::runs::fill_run(output, to, count, byte_of(shown));
            common::runs::fill_run(driven, to, count, driven_of(shown));
            return;
        }
        output[i] = byte_of(shown);
        driven[i] = driven_of(shown);
    }
}

// The array from an address up, after `at` silent bytes: to the top in one run, and on from address 0 in another.
fn show_array(from: u32, at: u8, array: &[u8], output: &mut [u8])
    requires { (from < length array.now) × (length output.old ≤ length array.now) }
    ensures { output.new ≡ tab (length output.old) (λ i. byte_of (read_at (length array.now) from at (memory array.now) i)) }
{
    let size = array.len();
    let count = output.len();
    let start = from as usize;
    let head = usize::from(at).min(count);
    common::runs::fill_run(output, 0, head, 0xff);
    let top = head + (count - head).min(size - start);
    common::runs::copy_run(output, head, top, array, start);
    common::runs::copy_run(output, top, count, array, 0);
}

// From byte `at` on all are driven, whatever stands in the array: an erased byte too.
fn drive_since(at: u8, driven: &mut [u8])
    ensures { (bytes : ℕ → ℕ) → driven.new ≡ tab (length driven.old) (λ i. driven_of (since at i (bytes i))) }
{
    let count = driven.len();
    let head = usize::from(at).min(count);
    common::runs::fill_run(driven, 0, head, 0);
    common::runs::fill_run(driven, head, count, 1);
}

// What a command shows, in both slices, which C lends apart. No struct of state and command: a fact by cases, as `Fits`, is no plain field, and the clauses
// would say `taken.state` and `taken.command` for s and c.
pub fn emit(s: State, c: Command, array: &[u8], output: &mut [u8], driven: &mut [u8])
    requires { Fits s c × (length array.now ≡ (data_of s).size) × (length output.old ≤ longest_frame) × (length driven.old ≡ length output.old) }
    ensures output_after { output.new ≡ tab (length output.old) (λ i. byte_of (shown_at s c (memory array.now) i)) }
    ensures driven_after { driven.new ≡ tab (length output.old) (λ i. driven_of (shown_at s c (memory array.now) i)) }
{
    match c {
        Command::ReadArray { from, at } => {
            show_array(from, at, array, output);
            drive_since(at, driven);
        }
        _ => show_each(s, c, output, driven),
    }
}
