// A frame understood: what document 01's table says of it, with all that the row needs worked out.
#![tactic(auto)]

mod rows;
pub mod understand;

#[derive(Clone, Copy)]
pub enum Command {
    Ignored,
    ReadStatus,
    // bytes `at` on show the array from `from` up
    ReadArray { from: u32, at: u8 },
    ReadJedec,
    ReadSignature,
    // the device ID first
    ReadIdentity(bool),
    WriteEnable,
    WriteDisable,
    Arm,
    WriteStatus { byte: u8, time: u32 },
    Erase { start: u32, count: u32, time: u32 },
    // the data is the frame's byte 4
    ProgramByte { address: u32 },
    // the data is the frame's `count` bytes from byte 4 on
    ProgramPage { address: u32, count: u32 },
    // the data is the frame's bytes from byte `from` on
    ProgramWord { address: u32, from: u8 },
    Sleep,
}
