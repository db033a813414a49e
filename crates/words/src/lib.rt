// Step 2: the words that change, in runs of neighbours.
#![tactic(auto)]

ghost use Rattle.std.specs.Prelude.{◌≡◌, true, false, ◌+◌, ◌≤◌, ◌<◌, length};
ghost use Rattle.script.specs.Record.{encode};
ghost use Rattle.region.specs.Region.{wanted_at, changes};
ghost use Rattle.common.specs.Buffer.{Put};
ghost use Rattle.words.specs.Words.{word_changes, step_two};
ghost use Rattle.words.specs.Walk.{word_records};

use region::{Program, Update};
use script::measure::Measure;

// Whether the word at an even address holds a changing byte.
fn word_changes(update: &Update, address: usize) -> bool
    requires { address < length update.now.array.now }
    ensures { result ≡ word_changes (changes update.now.array.now update.now.start update.now.wanted.now) address }
{
    update.changes(address) || update.changes(address + 1)
}

// The first word of a run: 06, AD with the address and the word, wait 7.
// That an address has three bytes is a clause here and no type: it is counted on from the region's place, and would be wrapped anew for each word.
fn put_first(update: &Update, address: usize, buffer: &mut [u8], at: usize) -> usize
    requires address_bound { address < 16777216 }
    requires address_in_bounds { at + length (encode (word_records (wanted_at update.now.start update.now.wanted.now) false true address)) ≤ length buffer.old }
    ensures { Put at (encode (word_records (wanted_at update.now.start update.now.wanted.now) false true address)) buffer.old buffer.new result }
{
    let place = common::address_bytes(address);
    let even = update.wanted_at(address);
    let odd = update.wanted_at(address + 1);
    let enabled = script::writer::put_frame(&[0x06], buffer, at);
    let sent = script::writer::put_frame(
        &[0xad, place[0], place[1], place[2], even, odd],
        buffer,
        enabled,
    );
    script::writer::put_wait(7, buffer, sent)
}

// A further word: AD with the word, wait 7.
fn put_further(update: &Update, address: usize, buffer: &mut [u8], at: usize) -> usize
    requires address_bound { address < 16777216 }
    requires address_in_bounds { at + length (encode (word_records (wanted_at update.now.start update.now.wanted.now) true true address)) ≤ length buffer.old }
    ensures { Put at (encode (word_records (wanted_at update.now.start update.now.wanted.now) true true address)) buffer.old buffer.new result }
{
    let even = update.wanted_at(address);
    let odd = update.wanted_at(address + 1);
    let sent = script::writer::put_frame(&[0xad, even, odd], buffer, at);
    script::writer::put_wait(7, buffer, sent)
}

// What a word adds to the script. The two bools say what stands there, a run that goes on and a word that changes; behind
// the last word none does.
fn put_word(
    update: &Update,
    running: bool,
    changes: bool,
    address: usize,
    buffer: &mut [u8],
    at: usize,
) -> usize
    requires address_bound { address < 16777216 }
    requires address_in_bounds { at + length (encode (word_records (wanted_at update.now.start update.now.wanted.now) running changes address)) ≤ length buffer.old }
    ensures { Put at (encode (word_records (wanted_at update.now.start update.now.wanted.now) running changes address)) buffer.old buffer.new result }
{
    match (changes, running) {
        (true, true) => put_further(update, address, buffer, at),
        (true, false) => put_first(update, address, buffer, at),
        (false, true) => script::writer::put_frame(&[0x04], buffer, at),
        (false, false) => at,
    }
}

pub struct Words;

impl Program for Words {
    ghost records = { step_two };

    // A run of w words has w + 2 frames, w waits of 7, and 13 (w + 1) bytes.
    fn measure(update: &Update) -> Measure {
        let mut words: u32 = 0;
        let mut runs: u32 = 0;
        let mut running = false;
        for word in update.start / 2..update.end().div_ceil(2) {
            let changes = word_changes(update, word * 2);
            words += u32::from(changes);
            runs += u32::from(changes && !running);
            running = changes;
        }
        Measure {
            length: 13 * (words + runs),
            frames: words + 2 * runs,
            microseconds: 7 * words,
        }
    }

    fn put(update: &Update, buffer: &mut [u8], at: usize) -> usize {
        let behind = update.end().div_ceil(2);
        let mut next = at;
        let mut running = false;
        for word in update.start / 2..behind {
            let address = word * 2;
            let changes = word_changes(update, address);
            next = put_word(update, running, changes, address, buffer, next);
            running = changes;
        }
        // a run that goes on is closed
        put_word(update, running, false, behind * 2, buffer, next)
    }
}
