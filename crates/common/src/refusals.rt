// Why a call is refused. The numbers are 1 to 11 in the order of 01's table, then what can be wrong with a record (02, A1), with a book (02, A2) and with
// names (02, A7).
ghost use Rattle.std.specs.Prelude.{◌≡◌};
ghost use Rattle.common.specs.Refusals.{number_of};

#[derive(Clone, Copy, Debug, PartialEq, Eq)]
pub enum Refusal {
    // the state is not sound, or the chip number unknown
    StateNotSound = 1,
    // the array's length isn't the chip's size
    WrongArray = 2,
    // the frame is empty or too long
    WrongFrame = 3,
    // the output's length isn't the frame's; a script's: the sum
    WrongOutput = 4,
    // the mask's length is wrong
    WrongMask = 5,
    // too many wanted bytes, or they end above the size
    WrongRegion = 6,
    // busy, AAI or power-down
    NotAtRest = 7,
    // a wanted 1 where the array has 0
    WantedRises = 8,
    // step 1 is needed, BPL is 1 and WP low
    StatusLocked = 9,
    // the script is longer than the buffer
    BufferTooShort = 10,
    // the script is too long
    ScriptTooLong = 11,
    // a record's mark is none of the two
    UnknownMark = 12,
    // a record's frame is empty or too long
    WrongLength = 13,
    // a record has too few bytes
    CutShort = 14,
    // a scene or a sector that no flag book has
    WrongBook = 15,
    // a bad name, too many names, or a read scene that none is for
    WrongNames = 18,
    // a name stands twice in the list
    NameTwice = 19,
    // the records don't fit in a sector
    RecordsTooLong = 20,
}

impl Refusal {
    // Its number, as an answer carries it.
    pub fn number(self) -> u32
        ensures { result ≡ number_of self }
    {
        self as u32
    }
}
