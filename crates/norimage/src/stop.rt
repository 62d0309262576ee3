//! What stops a command, and the status with which each ends.
ghost use Rattle.std.specs.Prelude.{◌≡◌};
ghost use Rattle.norimage.specs.Endings.{status_of, file_failure, save_failure, image_failure};

use nor_dump::{ChangeError, TableError};
use nor_image::ImageError;
use nor_io::{LoadError, SaveError};

/// One of the files that a command reads.
#[derive(Clone, Copy, Debug, PartialEq, Eq)]
pub enum File {
    Image,
    Table,
    Raw,
}

/// What stops a command.
#[derive(Clone, Copy, Debug, PartialEq, Eq)]
pub enum Stop {
    /// The words match no form.
    Usage,
    /// The width, the device and the lanes are none of the nine wirings.
    BadWiring,
    /// The bytes under the image's name stand for no bank.
    BadImage(ImageError),
    /// Those under the table's name are no query table.
    BadTable(TableError),
    /// The bank can't have such paces, weak places or stuck lanes.
    BadChange(ChangeError),
    /// The dump has so many bytes, the bank that is asked for so many.
    RawLength { raw: usize, bank: u32 },
    /// The bank hasn't got the lane.
    NoLane,
    /// The shelf has no such file.
    Absent(File),
    /// It has one, with more bytes than are loaded.
    TooLarge(File),
    /// It couldn't read the file.
    ReadFault(File),
    /// It couldn't save the file.
    WriteFault,
    NoMemory,
}

impl Stop {
    /// The status with which the command ends.
    pub fn status(self) -> u8
        ensures { result ≡ status_of self }
    {
        match self {
            Stop::Usage => 2,
            Stop::BadImage(_) => 3,
            Stop::TooLarge(File::Image) => 3,
            Stop::BadTable(TableError::Query(_)) => 5,
            Stop::BadTable(_) => 4,
            Stop::TooLarge(_) => 4,
            Stop::ReadFault(_) => 7,
            Stop::WriteFault => 7,
            Stop::Absent(_) => 8,
            Stop::NoMemory => 9,
            Stop::BadWiring => 10,
            Stop::BadChange(_) => 10,
            Stop::RawLength { .. } => 10,
            Stop::NoLane => 10,
        }
    }

    /// Why a file wasn't loaded.
    pub fn of_load(file: File, error: LoadError) -> Stop
        ensures { result ≡ file_failure file error }
    {
        match error {
            LoadError::Absent => Stop::Absent(file),
            LoadError::ReadFault => Stop::ReadFault(file),
            LoadError::TooLarge => Stop::TooLarge(file),
            LoadError::NoMemory => Stop::NoMemory,
        }
    }

    /// Why a file wasn't saved.
    pub fn of_save(error: SaveError) -> Stop
        ensures { result ≡ save_failure error }
    {
        match error {
            SaveError::WriteFault => Stop::WriteFault,
            SaveError::NoMemory => Stop::NoMemory,
        }
    }

    /// Why no bank is made of a file.
    pub fn of_image(error: ImageError) -> Stop
        ensures { result ≡ image_failure error }
    {
        match error {
            ImageError::NoMemory => Stop::NoMemory,
            error => Stop::BadImage(error),
        }
    }
}
