// A whole script, looked through without running it.
ghost use Rattle.std.specs.Prelude.{◌≡◌};
ghost use Rattle.script.specs.Survey.{counts_of, in_struct, no_offset, survey_of};

use super::reader::{Found, front_at};
use common::limits::LONGEST_SCRIPT;
use common::refusals::Refusal;

// What a script's records count: `output` is the bytes that its frames show.
#[derive(Clone, Copy, Debug, PartialEq, Eq)]
pub struct Counts {
    pub frames: u32,
    pub microseconds: u64,
    pub output: usize,
}

// Why a script is refused, and where: the offset is that of the first bad record's mark, and 0 with a refusal that is of no record.
#[derive(Clone, Copy, Debug, PartialEq, Eq)]
pub struct Refused {
    pub refusal: Refusal,
    pub offset: usize,
}

impl From<Refusal> for Refused {
    ghost from_gives = { λ refusal refused. refused ≡ no_offset refusal };

    fn from(refusal: Refusal) -> Refused {
        Refused { refusal, offset: 0 }
    }
}

// No Result: C reads this struct. Number 0 and what the records count; or the refusal's number and its offset.
#[repr(C)]
#[derive(Clone, Copy)]
pub struct Surveyed {
    pub number: u32,
    pub frames: u32,
    pub microseconds: u64,
    pub offset: usize,
    pub output: usize,
}

impl From<Result<Counts, Refused>> for Surveyed {
    ghost from_gives = { λ counted surveyed. surveyed ≡ in_struct counted };

    fn from(counted: Result<Counts, Refused>) -> Surveyed {
        match counted {
            Ok(counts) => Surveyed {
                number: 0,
                frames: counts.frames,
                microseconds: counts.microseconds,
                offset: 0,
                output: counts.output,
            },
            Err(refused) => Surveyed {
                number: refused.refusal.number(),
                frames: 0,
                microseconds: 0,
                offset: refused.offset,
                output: 0,
            },
        }
    }
}

// The whole script in one pass over its records. No `for`: a bad record is told with its offset, so an iterator's items would
// have to carry the place.
pub fn counts_of(script: &[u8]) -> Result<Counts, Refused>
    ensures { result ≡ counts_of script.now }
{
    if LONGEST_SCRIPT < script.len() {
        return Err(Refusal::ScriptTooLong.into());
    }
    let mut counts = Counts {
        frames: 0,
        microseconds: 0,
        output: 0,
    };
    let mut at = 0;
    loop {
        match front_at(script, at) {
            Ok(Some(Found::Frame { length, next, .. })) => {
                counts.frames += 1;
                counts.output += length;
                at = next;
            }
            Ok(Some(Found::Wait { microseconds, next })) => {
                counts.microseconds += u64::from(microseconds);
                at = next;
            }
            Ok(None) => return Ok(counts),
            Err(refusal) => {
                return Err(Refused {
                    refusal,
                    offset: at,
                });
            }
        }
    }
}

// The same, for C.
pub fn survey_of(script: &[u8]) -> Surveyed
    ensures { result ≡ survey_of script.now }
{
    counts_of(script).into()
}
