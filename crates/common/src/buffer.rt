// Bytes laid into a lent buffer, one run behind the other. A writer takes the buffer and an index in it: a struct that held both would hold what is lent,
// and each contract would need a clause about that loan.
ghost use Rattle.std.specs.Prelude.{◌+◌, ◌≤◌, length};
ghost use Rattle.common.specs.Buffer.{Put};

// Copies the bytes into the buffer from `at` on; gives the index behind them.
pub fn put(bytes: &[u8], buffer: &mut [u8], at: usize) -> usize
    requires { at + length bytes.now ≤ length buffer.old }
    ensures { Put at bytes.now buffer.old buffer.new result }
{
    let next = at + bytes.len();
    buffer[at..next].copy_from_slice(bytes);
    next
}
