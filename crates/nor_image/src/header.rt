ghost use Rattle.std.specs.Prelude.{◌≡◌, codes};
ghost use Rattle.nor_image.specs.Image.{magic_of, is_magic, version_of, width_of, device_of, device_of_code};
ghost use Rattle.nor_image.specs.Image.{magic_field, width_field, byte_up_to_field, lanes_field, lanes_of_file};
ghost use Rattle.nor_image.specs.Image.{first_refusal, header_fields};
ghost use Rattle.nor_image.specs.Reading.{Reads, ReadsField, IsHeader};

use crate::ImageError;
use crate::fields::{byte_field, byte_up_to, bytes_field, check};
use nor_cell::{Device, Geometry, make_geometry};

/// A version of the file: only the second one has the locks that chips keep without power.
#[derive(Clone, Copy)]
pub enum Version {
    One,
    Two,
}

/// How a file of this version begins.
pub fn magic_of(version: Version) -> [u8; 8]
    ensures { result ≡ magic_of version }
{
    match version {
        Version::One => *b"NORBANK1",
        Version::Two => *b"NORBANK2",
    }
}

/// What the header says: the version, the width in bytes, the lanes and the device.
#[derive(Clone, Copy)]
pub struct Header {
    pub version: Version,
    pub width: u8,
    pub geometry: Geometry,
}

fn is_magic(file: &[u8], version: Version) -> bool
    ensures { result ≡ is_magic file.now version }
{
    file.starts_with(&magic_of(version))
}

fn read_version(file: &[u8]) -> Result<Version, ImageError>
    ensures { ReadsField file.now (magic_field file.now) (version_of file.now) result }
{
    bytes_field(file, 0, 8)?;
    if is_magic(file, Version::Two) {
        Ok(Version::Two)
    } else if is_magic(file, Version::One) {
        Ok(Version::One)
    } else {
        Err(ImageError::BadMagic)
    }
}

fn read_width(file: &[u8]) -> Result<u8, ImageError>
    ensures { ReadsField file.now (width_field file.now) (width_of file.now) result }
{
    let width = byte_field(file, 8)?;
    check(matches!(width, 1 | 2 | 4 | 8), 8)?;
    Ok(width)
}

fn device_of_code(code: u8) -> Device
    ensures { result ≡ device_of_code code }
{
    match code {
        0 => Device::X8,
        1 => Device::X16,
        _ => Device::X16Byte,
    }
}

fn read_device(file: &[u8]) -> Result<Device, ImageError>
    ensures { ReadsField file.now (byte_up_to_field file.now 9 2) (device_of file.now) result }
{
    let code = byte_up_to(file, 9, 2)?;
    Ok(device_of_code(code))
}

// The lanes, which have to fill the width.
fn read_geometry(file: &[u8], width: u8, device: Device) -> Result<Geometry, ImageError>
    requires width { width ≡ width_of file.now }
    requires device { device ≡ device_of file.now }
    ensures { ReadsField file.now (lanes_field file.now)
        (record { lanes = lanes_of_file file.now; device = device_of file.now }) result }
{
    let lanes = byte_field(file, 10)?;
    make_geometry(width, lanes, device).map_err(|_| ImageError::BadHeader { at: 10 })
}

pub fn read_header(file: &[u8]) -> Result<Header, ImageError>
    ensures { Reads (first_refusal file.now (header_fields file.now)) (IsHeader file.now) result }
{
    let version = read_version(file)?;
    let width = read_width(file)?;
    let device = read_device(file)?;
    let geometry = read_geometry(file, width, device)?;
    byte_up_to(file, 11, 0)?;
    Ok(Header {
        version,
        width,
        geometry,
    })
}
