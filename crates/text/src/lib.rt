// Lines of text, written into a lent buffer one behind the other. Nothing here knows a chip or a script.
#![tactic(auto)]

ghost use Rattle.std.specs.Prelude.{◌≡◌, List, [], ◌∷◌, ◌++◌, ℕ, ◌+◌, ◌≤◌, ◌<◌, length, flat_map};
ghost use Rattle.common.specs.Buffer.{Put};
ghost use Rattle.common.specs.Lists.{Each};
ghost use Rattle.text.specs.Text.{digit, pair, hex, shown_pair, shown_hex, decimal_end, decimal, spaced, line_feed, line, decimals_line};

use common::buffer::put;

// What ends a line.
const LINE_FEED: u8 = b'\n';

// The character of a digit below 16.
// No `char::from_digit`: it gives small letters, within an `Option`.
#[tactic(auto, unfolding(crate::specs::Text::digit))]
fn digit(value: u8) -> u8
    requires { value < 16 }
    ensures { result ≡ digit value }
{
    if value < 10 {
        b'0' + value
    } else {
        b'A' + (value - 10)
    }
}

// Something that a line can spell out.
// No `Display`, and no struct of text and place: a value that holds a `&mut` needs a clause about that loan in the contract of each
// function that takes it.
trait Spelled {
    // its characters
    ghost characters: { Self → List ℕ };

    // which values of the type have them
    ghost can_spell: { Self → Type 0 } = { λ _. Unit {0} };

    fn put(self, text: &mut [u8], at: usize) -> usize
        requires spelled { can_spell self }
        requires room { at + length (characters self) ≤ length text.old }
        ensures { Put at (characters self) text.old text.new result };
}

// A byte: its two digits.
impl Spelled for u8 {
    ghost characters = { pair };

    fn put(self, text: &mut [u8], at: usize) -> usize {
        put(&[digit(self / 16), digit(self % 16)], text, at)
    }
}

// A number below 100,000: its last digit behind the others.
fn put_decimal(number: u32, text: &mut [u8], at: usize) -> usize
    requires number_lt_decimal_end { number < decimal_end }
    requires number_in_bounds { at + length (decimal number) ≤ length text.old }
    ensures { Put at (decimal number) text.old text.new result }
{
    if number < 10 {
        return put(&[digit(number as u8)], text, at);
    }
    let last = put_decimal(number / 10, text, at);
    put(&[digit((number % 10) as u8)], text, last)
}

// Such a number: behind a space.
// It is a plain `u32` and no type of its own: callers hand `put_decimals_line` a slice of `u32` whose numbers are all below 100,000.
impl Spelled for u32 {
    ghost characters = { spaced };

    ghost can_spell = { λ number. number < decimal_end };

    fn put(self, text: &mut [u8], at: usize) -> usize {
        let begun = put(&[b' '], text, at);
        put_decimal(self, text, begun)
    }
}

// Several of a kind: one behind the other, without gaps.
impl<T: Spelled + Copy> Spelled for &[T] {
    ghost characters = { λ items. flat_map T.characters items.now };

    ghost can_spell = { λ items. Each T.can_spell items.now };

    fn put(self, text: &mut [u8], at: usize) -> usize {
        let mut next = at;
        for item in self {
            next = item.put(text, next);
        }
        next
    }
}

// A byte as the line showed it: two dashes where nothing drove it.
fn put_shown_pair(byte: u8, driven: u8, text: &mut [u8], at: usize) -> usize
    requires { at + 2 ≤ length text.old }
    ensures { Put at (shown_pair byte driven) text.old text.new result }
{
    if driven == 0 {
        return put(&[b'-', b'-'], text, at);
    }
    byte.put(text, at)
}

// Bytes as the line showed them, and for each whether it was driven.
// No slice of pairs: what a run fills are two slices, as C lends them. `Drop`, since `put` lets go of it.
#[derive(Drop)]
struct Shown<'a> {
    bytes: &'a [u8],
    driven: &'a [u8],
    ghost long: { length driven.now ≡ length bytes.now },
}

impl Spelled for Shown<'_> {
    ghost characters = { λ shown. shown_hex shown.bytes.now shown.driven.now };

    fn put(self, text: &mut [u8], at: usize) -> usize {
        let mut next = at;
        // No `zip`: it would ask at each byte whether either slice has ended.
        for (i, byte) in self.bytes.iter().enumerate() {
            next = put_shown_pair(*byte, self.driven[i], text, next);
        }
        next
    }
}

// What opens a line, what it tells, and its end.
fn put_line<T: Spelled>(opening: &[u8], told: T, text: &mut [u8], at: usize) -> usize
    requires spelled { T.can_spell told }
    requires room { at + length (opening.now ++ (T.characters told ++ (line_feed ∷ []))) ≤ length text.old }
    ensures { Put at (opening.now ++ (T.characters told ++ (line_feed ∷ []))) text.old text.new result }
{
    let begun = put(opening, text, at);
    let end = told.put(text, begun);
    put(&[LINE_FEED], text, end)
}

// A letter and what bytes it stands for, in hex.
pub fn put_hex_line(letter: u8, bytes: &[u8], text: &mut [u8], at: usize) -> usize
    requires { at + length (line letter (hex bytes.now)) ≤ length text.old }
    ensures { Put at (line letter (hex bytes.now)) text.old text.new result }
{
    put_line(&[letter, b' '], bytes, text, at)
}

// A letter and the bytes that the line showed, some of them silent.
pub fn put_shown_line(letter: u8, bytes: &[u8], driven: &[u8], text: &mut [u8], at: usize) -> usize
    requires driven_len { length driven.now ≡ length bytes.now }
    requires driven_in_bounds { at + length (line letter (shown_hex bytes.now driven.now)) ≤ length text.old }
    ensures { Put at (line letter (shown_hex bytes.now driven.now)) text.old text.new result }
{
    put_line(&[letter, b' '], Shown { bytes, driven }, text, at)
}

// A letter and numbers below 100,000, each behind a space.
pub fn put_decimals_line(letter: u8, numbers: &[u32], text: &mut [u8], at: usize) -> usize
    requires each { Each (λ n. n < decimal_end) numbers.now }
    requires numbers_in_bounds { at + length (decimals_line letter numbers.now) ≤ length text.old }
    ensures { Put at (decimals_line letter numbers.now) text.old text.new result }
{
    put_line(&[letter], numbers, text, at)
}
