// What a frame does to the array: which addresses it touches, and what becomes of each. Nothing here knows a state.
#![tactic(auto)]

pub mod change;

ghost use Rattle.std.specs.Prelude.{◌≡◌, ◌<◌};
ghost use Rattle.common.specs.Lists.{within};
ghost use Rattle.effect.specs.Effect.{page_effect, span_of, turn, last_for, touches, struck, mask_length};

use common::limits::ERASED;
use std::ops::Range;

#[derive(Clone, Copy)]
pub enum Effect {
    Keep,
    // `count` bytes from `start` become FF
    Fill { start: u32, count: u32 },
    // `count` bytes from `start` are ANDed with the frame's bytes from byte `from` on
    Program { start: u32, count: u32, from: u8 },
    // the page of `address` is ANDed with the frame's `count` bytes from byte 4 on, laid round the page
    Round { address: u32, count: u32 },
}

// A page program that stays below the page's end, or goes round.
#[tactic(auto, unfolding(crate::specs::Effect::page_effect))]
pub fn page_effect(address: u32, count: u32) -> Effect
    ensures { result ≡ page_effect address count }
{
    if count <= 256 - address % 256 {
        return Effect::Program {
            start: address,
            count,
            from: 4,
        };
    }
    Effect::Round { address, count }
}

// The addresses among which all touched ones lie.
fn span_of(e: Effect) -> Range<u32>
    requires { (span_of e).end < 4294967296 }
    ensures { result ≡ span_of e }
{
    match e {
        Effect::Keep => 0..0,
        Effect::Fill { start, count } => start..start + count,
        Effect::Program { start, count, .. } => start..start + count,
        Effect::Round { address, .. } => {
            let page = address / 256 * 256;
            page..page + 256
        }
    }
}

// How many bytes on from the address, round the page. By `k % 256`, so that the sum fits.
fn turn_of(address: u32, k: u32) -> u32
    ensures { (result ≡ turn address k) × (result < 256) }
{
    (k % 256 + (256 - address % 256)) % 256
}

// Whether an address is one of so many from a start on.
#[tactic(auto, unfolding(common::specs::Lists::within))]
fn is_within(start: u32, count: u32, k: u32) -> bool
    ensures { result ≡ within start count k }
{
    start <= k && k - start < count
}

#[tactic(auto, unfolding(crate::specs::Effect::touches))]
fn is_touched(e: Effect, k: u32) -> bool
    ensures { result ≡ touches e k }
{
    match e {
        Effect::Keep => false,
        Effect::Fill { start, count } => is_within(start, count, k),
        Effect::Program { start, count, .. } => is_within(start, count, k),
        Effect::Round { address, count } => {
            k / 256 == address / 256 && turn_of(address, k) < count
        }
    }
}

// The last of the data bytes for an address, round the page.
fn last_for(address: u32, count: u32, k: u32) -> u32
    ensures { result ≡ last_for address count k }
{
    let turn = turn_of(address, k);
    turn + count.saturating_sub(1).saturating_sub(turn) / 256 * 256
}

// The byte that a touched address gets.
#[tactic(auto, unfolding(crate::specs::Effect::struck))]
fn struck_byte(e: Effect, input: &[u8], k: u32, old: u8) -> u8
    ensures { result ≡ struck e input.now k old }
{
    match e {
        Effect::Keep => old,
        Effect::Fill { .. } => ERASED,
        Effect::Program { start, from, .. } => {
            old & common::byte_at(input, usize::from(from) + k.saturating_sub(start) as usize)
        }
        Effect::Round { address, count } => {
            old & common::byte_at(input, 4 + last_for(address, count, k) as usize)
        }
    }
}

#[tactic(auto, unfolding(crate::specs::Effect::mask_length))]
pub fn mask_length(e: Effect) -> usize
    ensures { result ≡ mask_length e }
{
    match e {
        Effect::Keep => 0,
        Effect::Fill { count, .. } => count as usize,
        Effect::Program { count, .. } => count as usize,
        Effect::Round { count, .. } => count.min(256) as usize,
    }
}
