// The array changed by an effect: whole, or as a power cut leaves it.
ghost use Rattle.std.specs.Prelude.{◌≡◌, ◌<◌, ◌≤◌, length, get_or, drop};
ghost use Rattle.std.specs.Slice.Iter.{iter_rest};
ghost use Rattle.common.specs.Lists.{mapi};
ghost use Rattle.effect.specs.Effect.{span_of, changed, Supplied};
ghost use Rattle.effect.specs.Cut.{mixed, cut};

use crate::{Effect, is_touched, span_of, struck_byte};
use common::limits::ERASED;
use std::slice::Iter;

// Runs of neighbours in one pass, and a page that goes round address by address.
pub fn change(array: &mut [u8], e: Effect, input: &[u8])
    requires { ((span_of e).end ≤ length array.old) × (length array.old < 4294967296) × Supplied e input.now }
    ensures { array.new ≡ mapi (changed e input.now) array.old }
{
    match e {
        Effect::Keep => {}
        Effect::Fill { start, count } => {
            let start = start as usize;
            common::runs::fill_run(array, start, start + count as usize, ERASED);
        }
        Effect::Program { start, count, from } => {
            let start = start as usize;
            common::runs::and_run(
                array,
                start,
                start + count as usize,
                input,
                usize::from(from),
            );
        }
        Effect::Round { .. } => {
            for k in span_of(e) {
                if is_touched(e, k) {
                    array[k as usize] = struck_byte(e, input, k, array[k as usize]);
                }
            }
        }
    }
}

// The new bit where the mask has 1, the old where it has 0.
#[tactic(auto, unfolding(crate::specs::Cut::mixed))]
fn mixed_byte(mask: u8, old: u8, new: u8) -> u8
    ensures { result ≡ mixed mask old new }
{
    new & mask | old & !mask
}

// A mask's next byte, 0 behind its last.
fn next_byte(mask: &mut Iter<u8>) -> u8
    ensures { (result ≡ get_or (iter_rest mask.old) 0 0) × (iter_rest mask.new ≡ drop 1 (iter_rest mask.old)) }
{
    mask.next().copied().unwrap_or(0)
}

// Cut by a mask, one byte for each touched address, by rising address.
pub fn cut_change(array: &mut [u8], e: Effect, input: &[u8], mask: &[u8])
    requires { ((span_of e).end ≤ length array.old) × (length array.old < 4294967296) }
    ensures { array.new ≡ mapi (cut e input.now mask.now) array.old }
{
    let mut bytes = mask.iter();
    for k in span_of(e) {
        if is_touched(e, k) {
            let old = array[k as usize];
            let new = struck_byte(e, input, k, old);
            array[k as usize] = mixed_byte(next_byte(&mut bytes), old, new);
        }
    }
}
