// Step 3: of each page that changes, the bytes from the first changing one to the last.
#![tactic(auto)]

ghost use Rattle.std.specs.Prelude.{◌≡◌, ◌+◌, ◌-◌, ◌*◌, ◌≤◌, length};
ghost use Rattle.script.specs.Record.{encode};
ghost use Rattle.region.specs.Region.{wanted_at, changes};
ghost use Rattle.common.specs.Buffer.{Put};
ghost use Rattle.pages.specs.Pages.{part_records, step_three};
ghost use Rattle.pages.specs.Parts.{First, Behind, PagePart, PartIn};

use region::{Program, Update};
use script::measure::Measure;
use std::ops::Range;

// The first changing address of some of the region, their end where none changes.
fn first_changing(update: &Update, from: usize, to: usize) -> usize
    requires start_le_from { update.now.start ≤ from }
    requires from_le_to { from ≤ to }
    requires to_le_end { to ≤ update.now.start + length update.now.wanted.now }
    ensures { First (changes update.now.array.now update.now.start update.now.wanted.now) from to result }
{
    (from..to)
        .find(|address| update.differs(*address))
        .unwrap_or(to)
}

// The address behind the last changing one of some of the region, their start where none changes.
fn behind_last(update: &Update, from: usize, to: usize) -> usize
    requires start_le_from { update.now.start ≤ from }
    requires from_le_to { from ≤ to }
    requires to_le_end { to ≤ update.now.start + length update.now.wanted.now }
    ensures { Behind (changes update.now.array.now update.now.start update.now.wanted.now) from to result }
{
    (from..to)
        .rfind(|address| update.differs(*address))
        .map_or(from, |last| last + 1)
}

// What of a page is to be programmed: from its first changing byte to behind its last, nothing where none changes.
fn page_part(update: &Update, page: usize) -> Range<usize>
    requires start_bound { (update.now.start ≤ page + 256) × (page ≤ update.now.start + length update.now.wanted.now) }
    ensures { PagePart (changes update.now.array.now update.now.start update.now.wanted.now) update.now.start update.now.wanted.now page result }
{
    let from = page.max(update.start);
    let to = (page + 256).min(update.end());
    let first = first_changing(update, from, to);
    let behind = behind_last(update, first, to);
    first..behind
}

// What the part of a page adds to the script: 06, 02 with its address and the wanted bytes, wait 1,500.
fn put_part(update: &Update, part: Range<usize>, buffer: &mut [u8], at: usize) -> usize
    requires part_in { PartIn update.now.start update.now.wanted.now part }
    requires part_in_bounds { at + length (encode (part_records (wanted_at update.now.start update.now.wanted.now) part.start (part.end - part.start))) ≤ length buffer.old }
    ensures { Put at (encode (part_records (wanted_at update.now.start update.now.wanted.now) part.start (part.end - part.start))) buffer.old buffer.new result }
{
    if part.is_empty() {
        return at;
    }
    let place = common::address_bytes(part.start);
    let wanted = &update.wanted[part.start - update.start..part.end - update.start];
    let enabled = script::writer::put_frame(&[0x06], buffer, at);
    let headed = script::writer::put_head(4 + part.len(), buffer, enabled);
    let addressed = common::buffer::put(&[0x02, place[0], place[1], place[2]], buffer, headed);
    let sent = common::buffer::put(wanted, buffer, addressed);
    script::writer::put_wait(1500, buffer, sent)
}

pub struct Pages;

impl Program for Pages {
    ghost records = { step_three };

    // A page of b bytes has two frames, a wait of 1,500, and 19 + b bytes.
    fn measure(update: &Update) -> Measure {
        let mut pages: u32 = 0;
        let mut bytes: u32 = 0;
        for page in update.start / 256..update.end().div_ceil(256) {
            let part = page_part(update, page * 256);
            pages += u32::from(!part.is_empty());
            bytes += part.len() as u32;
        }
        Measure {
            length: 19 * pages + bytes,
            frames: 2 * pages,
            microseconds: 1500 * pages,
        }
    }

    fn put(update: &Update, buffer: &mut [u8], at: usize) -> usize {
        let mut next = at;
        for page in update.start / 256..update.end().div_ceil(256) {
            next = put_part(update, page_part(update, page * 256), buffer, next);
        }
        next
    }
}
