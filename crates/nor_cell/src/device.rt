/// How a chip is wired: eight bits wide, sixteen bits wide, or a sixteen bit part in byte mode, of
/// which eight data lines are used.
#[derive(Clone, Copy, Debug, PartialEq, Eq, Default)]
pub enum Device {
    #[default]
    X8,
    X16,
    X16Byte,
}

/// A chip's command set, by its primary identifier in the query table: 0x0001 Intel extended, or
/// 0x0002 AMD standard.
#[derive(Clone, Copy, Debug, PartialEq, Eq)]
pub enum Set {
    Intel,
    Amd,
}

/// What may be done in other blocks while an erase is suspended.
#[derive(Clone, Copy, Debug, PartialEq, Eq)]
pub enum SuspendKind {
    None,
    Read,
    Program,
}

/// What the query table gives times for: programming a word or a buffer load, erasing a block or
/// the whole chip.
#[derive(Clone, Copy, Debug, PartialEq, Eq)]
pub enum Work {
    Word,
    Buffer,
    Block,
    Chip,
}

/// A range of bytes.
#[derive(Clone, Copy, Debug, PartialEq, Eq)]
pub struct Span {
    pub from: u32,
    pub len: u32,
}
