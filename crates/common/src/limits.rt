// How long things may be (01), and what an erased byte is.

// A frame has "1 to 4,101" bytes.
pub const LONGEST_FRAME: usize = 4101;

// A script has "at most 32,768 bytes".
pub const LONGEST_SCRIPT: usize = 32768;

// A plan takes "up to 4,096 wanted bytes".
pub const LONGEST_WANTED: usize = 4096;

// A sector is 4,096 bytes.
pub const SECTOR: usize = 4096;

// Where it is erased, each byte is FF.
pub const ERASED: u8 = 0xff;
