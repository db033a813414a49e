// The step of a plan that programs: by words or by pages, as the chip does.
ghost use Rattle.std.specs.Prelude.{◌≡◌, List, ℕ, ◌+◌, ◌≤◌, length};
ghost use Rattle.common.specs.Buffer.{Put};
ghost use Rattle.script.specs.Record.{Record, encode};
ghost use Rattle.script.specs.Measure.{measure_of};

use crate::Update;
use script::measure::Measure;

pub trait Program {
    // the step's records: of an array, the place where the region starts, and the bytes wanted
    ghost records: { List ℕ → ℕ → List ℕ → List Record };

    // What the step amounts to.
    fn measure(update: &Update) -> Measure
        ensures { result ≡ measure_of (records update.now.array.now update.now.start update.now.wanted.now) };

    // Writes the whole step into the buffer from `at` on, and gives the place behind it.
    // Buffer and place are no struct: one that holds a `&mut` needs a clause about that loan in each contract.
    fn put(update: &Update, buffer: &mut [u8], at: usize) -> usize
        requires { at + length (encode (records update.now.array.now update.now.start update.now.wanted.now)) ≤ length buffer.old }
        ensures { Put at (encode (records update.now.array.now update.now.start update.now.wanted.now)) buffer.old buffer.new result };
}
