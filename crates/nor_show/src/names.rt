ghost use Rattle.std.specs.Prelude.{Some};
ghost use Rattle.nor_show.specs.Lines.{device_name, set_name, suspend_name, yes_or_no, hex_byte, hex_word};

use nor_cell::{Device, Set, SuspendKind};
use std::fmt;

/// A device as text.
#[derive(Clone, Copy, Debug, PartialEq, Eq)]
pub struct DeviceName(pub Device);

impl fmt::Display for DeviceName {
    ghost output = { λ name. Some (device_name name.0) };

    fn fmt<W: fmt::Write>(&self, f: &mut fmt::Formatter<W>) -> fmt::Result {
        match self.0 {
            Device::X8 => write!(f, "x8"),
            Device::X16 => write!(f, "x16"),
            Device::X16Byte => write!(f, "x16-byte"),
        }
    }
}

/// A command set's primary identifier as text.
#[derive(Clone, Copy, Debug, PartialEq, Eq)]
pub struct SetName(pub Set);

impl fmt::Display for SetName {
    ghost output = { λ name. Some (set_name name.0) };

    fn fmt<W: fmt::Write>(&self, f: &mut fmt::Formatter<W>) -> fmt::Result {
        match self.0 {
            Set::Intel => write!(f, "0001"),
            Set::Amd => write!(f, "0002"),
        }
    }
}

/// What a suspended erase allows as text.
#[derive(Clone, Copy, Debug, PartialEq, Eq)]
pub struct SuspendName(pub SuspendKind);

impl fmt::Display for SuspendName {
    ghost output = { λ name. Some (suspend_name name.0) };

    fn fmt<W: fmt::Write>(&self, f: &mut fmt::Formatter<W>) -> fmt::Result {
        match self.0 {
            SuspendKind::None => write!(f, "none"),
            SuspendKind::Read => write!(f, "read"),
            SuspendKind::Program => write!(f, "program"),
        }
    }
}

/// `yes` or `no`.
#[derive(Clone, Copy, Debug, PartialEq, Eq)]
pub struct YesOrNo(pub bool);

impl fmt::Display for YesOrNo {
    ghost output = { λ answer. Some (yes_or_no answer.0) };

    fn fmt<W: fmt::Write>(&self, f: &mut fmt::Formatter<W>) -> fmt::Result {
        match self.0 {
            true => write!(f, "yes"),
            false => write!(f, "no"),
        }
    }
}

/// A byte as two hex digits.
#[derive(Clone, Copy, Debug, PartialEq, Eq)]
pub struct HexByte(pub u8);

impl fmt::Display for HexByte {
    ghost output = { λ byte. Some (hex_byte byte.0) };

    fn fmt<W: fmt::Write>(&self, f: &mut fmt::Formatter<W>) -> fmt::Result {
        write!(f, "{:x}{:x}", self.0 / 16, self.0 % 16)
    }
}

/// A number of 16 bits as four hex digits.
#[derive(Clone, Copy, Debug, PartialEq, Eq)]
pub struct HexWord(pub u16);

impl fmt::Display for HexWord {
    ghost output = { λ word. Some (hex_word word.0) };

    fn fmt<W: fmt::Write>(&self, f: &mut fmt::Formatter<W>) -> fmt::Result {
        let [high, low] = self.0.to_be_bytes();
        let high = HexByte(high);
        let low = HexByte(low);
        write!(f, "{high}{low}")
    }
}
