// Runs of neighbouring bytes: filled, copied, ANDed. One pass over the run, and nothing else is touched. Each says what becomes of the whole slice, which
// a part of it, `&mut bytes[from..to]`, could not.
ghost use Rattle.std.specs.Prelude.{◌≡◌, ◌+◌, ◌-◌, ◌≤◌, get_or, length};
ghost use Rattle.std.specs.Int.Bits.{bit_and};
ghost use Rattle.common.specs.Lists.{mapi, on_run};

// The bytes from `from` up to `to` become `value`.
pub fn fill_run(bytes: &mut [u8], from: usize, to: usize, value: u8)
    requires { (from ≤ to) × (to ≤ length bytes.old) }
    ensures { bytes.new ≡ mapi (on_run from to (λ k x. value)) bytes.old }
{
    bytes[from..to].fill(value);
}

// The bytes from `from` up to `to` become those of another slice from `at` on.
pub fn copy_run(bytes: &mut [u8], from: usize, to: usize, source: &[u8], at: usize)
    requires { (from ≤ to) × (to ≤ length bytes.old) × (at + (to - from) ≤ length source.now) }
    ensures { bytes.new ≡ mapi (on_run from to (λ k x. get_or source.now (at + (k - from)) 0)) bytes.old }
{
    // an empty run, as where a read does not wrap, is not worth the call of a block move
    if from == to {
        return;
    }
    let end = at + (to - from);
    bytes[from..to].copy_from_slice(&source[at..end]);
}

// Each byte from `from` up to `to` is ANDed with that of another slice from `at` on. By index: behind a zip over `iter_mut` a proof knows no byte.
pub fn and_run(bytes: &mut [u8], from: usize, to: usize, source: &[u8], at: usize)
    requires { (from ≤ to) × (to ≤ length bytes.old) × (at + (to - from) ≤ length source.now) }
    ensures { bytes.new ≡ mapi (on_run from to (λ k x. bit_and x (get_or source.now (at + (k - from)) 0))) bytes.old }
{
    for k in from..to {
        bytes[k] &= source[at + (k - from)];
    }
}
