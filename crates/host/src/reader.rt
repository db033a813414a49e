// The reader's answer as a struct of C.
ghost use Rattle.std.specs.Prelude.{◌≡◌};
ghost use Rattle.host.specs.Read.{record_of};

use script::reader::{AtOffset, Found};

// Kinds of answers, by the numbers that C knows.
enum Kind {
    Refused = 0,
    Frame = 1,
    Wait = 2,
    End = 3,
}

// No enum: C reads this struct. What a kind has no use for is 0; the next offset is the given one for a refusal and the end.
#[repr(C)]
#[derive(Clone, Copy)]
pub struct Record {
    pub number: u32,
    pub kind: u32,
    // the frame's place in the script
    pub start: usize,
    pub length: usize,
    pub microseconds: u32,
    pub next: usize,
}

impl From<AtOffset> for Record {
    ghost from_gives = { λ answer laid. laid ≡ record_of answer };

    fn from(answer: AtOffset) -> Record {
        let empty = Record {
            number: 0,
            kind: Kind::End as u32,
            start: 0,
            length: 0,
            microseconds: 0,
            next: answer.next,
        };
        match answer.read {
            Ok(Some(Found::Frame { start, length, .. })) => Record {
                kind: Kind::Frame as u32,
                start,
                length,
                ..empty
            },
            Ok(Some(Found::Wait { microseconds, .. })) => Record {
                kind: Kind::Wait as u32,
                microseconds,
                ..empty
            },
            Ok(None) => empty,
            Err(refusal) => Record {
                number: refusal.number(),
                kind: Kind::Refused as u32,
                ..empty
            },
        }
    }
}
