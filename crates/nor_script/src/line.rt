use nor_array::Op;

/// What a line asks for.
#[derive(Clone, Debug, PartialEq, Eq, Drop)]
pub enum Word {
    /// One call of the bank.
    Call(Op),
    /// The block is opened for erase, and then polled until it is erased.
    Erase { block: u32 },
    /// The same of all blocks at once.
    EraseAll,
}

/// A command line of a script. The caller is 1 to 8, and 0 for a cut and a reboot. The number is that
/// of the line in the text, from 1, comments and empty lines counted.
#[derive(Clone, Debug, PartialEq, Eq, Drop)]
pub struct Line {
    pub caller: u8,
    pub number: u32,
    pub word: Word,
}
