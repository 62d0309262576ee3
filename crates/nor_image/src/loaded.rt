use nor_amd::Amd;
use nor_bus::SimBank;
use nor_intel::Intel;

/// The bank that a file stands for, by its chips' set and by how many bits its bus word has.
#[derive(Drop)]
pub enum Loaded {
    Intel8(SimBank<u8, Intel>),
    Intel16(SimBank<u16, Intel>),
    Intel32(SimBank<u32, Intel>),
    Intel64(SimBank<u64, Intel>),
    Amd8(SimBank<u8, Amd>),
    Amd16(SimBank<u16, Amd>),
    Amd32(SimBank<u32, Amd>),
    Amd64(SimBank<u64, Amd>),
}

/// Does one thing with the bank in a `Loaded`, whichever it is: `with_bank!(loaded, bank => f(bank))`.
#[macro_export]
macro_rules! with_bank {
    ($loaded:expr, $bank:ident => $body:expr) => {
        match $loaded {
            $crate::Loaded::Intel8($bank) => $body,
            $crate::Loaded::Intel16($bank) => $body,
            $crate::Loaded::Intel32($bank) => $body,
            $crate::Loaded::Intel64($bank) => $body,
            $crate::Loaded::Amd8($bank) => $body,
            $crate::Loaded::Amd16($bank) => $body,
            $crate::Loaded::Amd32($bank) => $body,
            $crate::Loaded::Amd64($bank) => $body,
        }
    };
}
