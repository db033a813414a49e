// The kinds of instructions, by the sheets' names for them.
#[derive(Clone, Copy, Debug, PartialEq, Eq)]
pub enum Kind {
    Unknown,
    Read,
    FastRead,
    SectorErase,
    BlockErase,
    ChipErase,
    ByteProgram,
    PageProgram,
    AaiProgram,
    Rdsr,
    Ewsr,
    Wrsr,
    Wren,
    Wrdi,
    DeepPowerDown,
    Res,
    JedecId,
    Rdid,
}
