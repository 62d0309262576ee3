ghost use Rattle.std.specs.Prelude.{◌≡◌, ◌≤◌, ◌<◌, ◌^◌, Some, None};
ghost use Rattle.hex.specs.Hex.{hex_digit_value};
ghost use Rattle.nor_script.specs.Numbers.{number_of, number_from, digits_number};

// The value of a hex digit of either case.
fn digit_of(byte: u8) -> Option<u8>
    ensures { result ≡ hex_digit_value byte }
{
    match byte {
        b'A'..=b'F' => Some(byte - 55),
        b'a'..=b'f' => Some(byte - 87),
        b'0'..=b'9' => Some(byte - 48),
        _ => None,
    }
}

// The number of these digits, where it is below 2 ^ 32.
fn number_of_digits(base: u64, digits: &[u8]) -> Option<u32>
    requires { base ≤ 16 }
    ensures { result ≡ number_from base (Some 0) digits.now }
{
    let mut value = 0u64;
    for byte in digits {
        let digit = digit_of(*byte)?;
        let next = value * base + u64::from(digit);
        if u64::from(digit) >= base || next >= 1 << 32 {
            return None;
        }
        value = next;
    }
    Some(value as u32)
}

fn digits(base: u64, most: usize, text: &[u8]) -> Option<u32>
    requires { base ≤ 16 }
    ensures { result ≡ digits_number base most text.now }
{
    if text.is_empty() || text.len() > most {
        return None;
    }
    number_of_digits(base, text)
}

/// A number of one to ten decimal digits, or 0x and one to eight hex digits, below 2 ^ 32.
pub fn parse_number(text: &[u8]) -> Option<u32>
    ensures { result ≡ number_of text.now }
{
    match text {
        [b'0', b'x', rest @ ..] => digits(16, 8, rest),
        _ => digits(10, 10, text),
    }
}
