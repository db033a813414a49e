// The used bytes of a sector, piece by piece: once to measure the list of dropped stretches, once to write.
ghost use Rattle.std.specs.Prelude.{◌≡◌, ◌+◌, ◌-◌, ◌≤◌, ◌<◌, length, drop};
ghost use Rattle.std.specs.Iterator.{at_most};
ghost use Rattle.common.specs.Buffer.{Put};
ghost use Rattle.names.specs.Records.{none, front};
ghost use Rattle.salvage.specs.Pieces.{pieces_in, stretches_from, stretch_bytes, list_bytes};
ghost use Rattle.salvage.specs.Walk.{StretchEnds, NextPiece, PiecesPut};

use common::buffer::put;
use names::record::record_at;

// The bytes of one stretch in the list.
const ENTRY: usize = 4;

// Where the dropped stretch ends that begins at a place.
fn stretch_end(bytes: &[u8], at: usize) -> usize
    requires { (at < length bytes.now) × (front (drop at bytes.now) ≡ none) }
    ensures { StretchEnds bytes.now at result }
{
    (at + 1..bytes.len())
        .find(|&end| record_at(bytes, end).is_some())
        .unwrap_or(bytes.len())
}

// A record's bytes, or a stretch.
#[derive(Clone, Copy)]
enum Piece<'a> {
    Kept(&'a [u8]),
    Dropped { start: usize, count: usize },
}

// The pieces from a place on.
#[derive(Clone, Copy)]
struct Pieces<'a> {
    bytes: &'a [u8],
    at: usize,
}

fn pieces_of(bytes: &[u8]) -> Pieces<'_>
    ensures { (result.bytes.now ≡ bytes.now) × (result.at ≡ 0) }
{
    Pieces { bytes, at: 0 }
}

impl<'a> Iterator for Pieces<'a> {
    type Item = Piece<'a>;

    ghost next_gives = { NextPiece };

    ghost remaining = { λ pieces. at_most (length pieces.bytes.now - pieces.at) };

    // Always inlined: handed over in memory, a piece would cost a walk half as much again.
    #[inline(always)]
    fn next(&mut self) -> Option<Piece<'a>> {
        if self.bytes.len() <= self.at {
            return None;
        }
        let start = self.at;
        let piece = match record_at(self.bytes, start) {
            Some(size) => {
                self.at += size;
                Piece::Kept(&self.bytes[start..self.at])
            }
            None => {
                self.at = stretch_end(self.bytes, start);
                Piece::Dropped {
                    start,
                    count: self.at - start,
                }
            }
        };
        Some(piece)
    }
}

// How long the list of dropped stretches will be.
pub fn list_length(bytes: &[u8]) -> usize
    requires { length bytes.now ≤ 4096 }
    ensures { result ≡ length (list_bytes (stretches_from 0 (pieces_in bytes.now))) }
{
    let mut listed: usize = 0;
    for piece in pieces_of(bytes) {
        if let Piece::Dropped { .. } = piece {
            listed += ENTRY;
        }
    }
    listed
}

// One stretch, laid into the list.
fn put_stretch(start: usize, count: usize, list: &mut [u8], at: usize) -> usize
    requires { (start < 65536) × (count < 65536) × (at + 4 ≤ length list.old) }
    ensures { Put at (stretch_bytes record { start = start; count = count }) list.old list.new result }
{
    let [start_high, start_low] = (start as u16).to_be_bytes();
    let [count_high, count_low] = (count as u16).to_be_bytes();
    put(&[start_high, start_low, count_high, count_low], list, at)
}

// The records and the list, each laid from the front of its buffer; gives the length of the records.
pub fn put_pieces(bytes: &[u8], kept: &mut [u8], list: &mut [u8]) -> usize
    requires bytes_len_bound { (length bytes.now ≤ 4096) × (length bytes.now ≤ length kept.old) }
    requires bytes_in_bounds { length (list_bytes (stretches_from 0 (pieces_in bytes.now))) ≤ length list.old }
    ensures { PiecesPut bytes.now kept.old kept.new list.old list.new result }
{
    let mut laid: usize = 0;
    let mut listed: usize = 0;
    // Each buffer goes with how far it is filled, as `put` takes the two.
    for piece in pieces_of(bytes) {
        match piece {
            Piece::Kept(record) => laid = put(record, kept, laid),
            Piece::Dropped { start, count } => listed = put_stretch(start, count, list, listed),
        }
    }
    laid
}
