ghost use Rattle.std.specs.Prelude.{◌≡◌, ◌≤◌, ◌<◌, ◌+◌, ◌^◌, length, slice_index};
ghost use Rattle.std.specs.Prelude.{IfOk, None, Some, if◌then◌else◌};
ghost use Rattle.nor_io.specs.Fields.{u16_at, u32_at};
ghost use Rattle.nor_image.specs.Image.{any_field, byte_up_to_field, u16_up_to_field, refusal_of, bytes_at};
ghost use Rattle.nor_image.specs.Reading.{Reads, ReadsField};

use crate::ImageError;
use nor_io::{field_u16, field_u32};

// A field that isn't whole is refused where the file ends, which then isn't far.
fn truncated(file: &[u8]) -> ImageError
    requires { length file.now < 2 ^ 32 }
    ensures { result ≡ ImageError.Truncated (length file.now) }
{
    ImageError::Truncated {
        at: file.len() as u32,
    }
}

// Refuses a field that may not have its value.
pub fn check(valid: bool, at: usize) -> Result<(), ImageError>
    requires { at < 2 ^ 32 }
    ensures { Reads (if valid then None else Some (ImageError.BadHeader at))
        (λ _. Unit {0}) result }
{
    if valid {
        Ok(())
    } else {
        Err(ImageError::BadHeader { at: at as u32 })
    }
}

pub fn bytes_field(file: &[u8], at: usize, size: u32) -> Result<&[u8], ImageError>
    requires { at + size < 2 ^ 32 }
    ensures read { Reads (refusal_of file.now (any_field at size))
        (λ bytes. bytes.now ≡ bytes_at file.now at size) result }
    ensures size { IfOk result (λ bytes. length bytes.now ≡ size) }
{
    match file.get(at..at + size as usize) {
        Some(bytes) => Ok(bytes),
        None => Err(truncated(file)),
    }
}

pub fn byte_field(file: &[u8], at: usize) -> Result<u8, ImageError>
    requires { at < 2 ^ 31 }
    ensures read { ReadsField file.now (any_field at 1) (slice_index file.now at) result }
{
    match file.get(at) {
        Some(byte) => Ok(*byte),
        None => Err(truncated(file)),
    }
}

pub fn u32_field(file: &[u8], at: usize) -> Result<u32, ImageError>
    requires { at < 2 ^ 31 }
    ensures read { ReadsField file.now (any_field at 4) (u32_at file.now at) result }
{
    match field_u32(file, at) {
        Some(number) => Ok(number),
        None => Err(truncated(file)),
    }
}

// A byte that may have the values from 0 to `most`.
pub fn byte_up_to(file: &[u8], at: usize, most: u8) -> Result<u8, ImageError>
    requires { at < 2 ^ 31 }
    ensures read { Reads (refusal_of file.now (byte_up_to_field file.now at most))
        (λ n. (n ≡ slice_index file.now at) × (n ≤ most)) result }
{
    let byte = byte_field(file, at)?;
    check(byte <= most, at)?;
    Ok(byte)
}

fn u16_field(file: &[u8], at: usize) -> Result<u16, ImageError>
    requires { at < 2 ^ 31 }
    ensures read { ReadsField file.now (any_field at 2) (u16_at file.now at) result }
{
    match field_u16(file, at) {
        Some(number) => Ok(number),
        None => Err(truncated(file)),
    }
}

// A number of two bytes that may have the values from 0 to `most`.
pub fn u16_up_to(file: &[u8], at: usize, most: u16) -> Result<u16, ImageError>
    requires { at < 2 ^ 31 }
    ensures read { Reads (refusal_of file.now (u16_up_to_field file.now at most))
        (λ n. (n ≡ u16_at file.now at) × (n ≤ most)) result }
{
    let number = u16_field(file, at)?;
    check(number <= most, at)?;
    Ok(number)
}
