// The sizes of a book.

// It keeps the scenes 0 to 4,095, eight a byte,
pub const LAST_SCENE: u32 = 4095;

// so it uses 512 bytes from the start of a sector on.
pub const USED: usize = 512;
