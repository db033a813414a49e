// The marks of a script's records: the first byte of both, a frame's second, a wait's second.

pub const SCRIPT_MARK: u8 = 0x5a;

pub const FRAME_MARK: u8 = 0x46;

pub const WAIT_MARK: u8 = 0x57;
