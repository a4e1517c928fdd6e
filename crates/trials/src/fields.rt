// Fields between tabs, and decimal numbers.
ghost use Rattle.std.specs.Prelude.{◌+◌, ◌^◌, ◌<◌};

// What stands before the first such byte, or all.
pub(crate) fn up_to(text: &[u8], byte: u8) -> &[u8] {
    text.split(|b| *b == byte).next().unwrap_or(text)
}

// The field with this number, counted from 0, and those behind it.
pub(crate) fn from(row: &[u8], number: usize) -> &[u8]
    requires { number + 1 < 2 ^ 64 }
{
    row.splitn(number + 1, |byte| *byte == b'\t')
        .nth(number)
        .unwrap_or(b"")
}

pub(crate) fn field(row: &[u8], number: usize) -> &[u8] {
    row.split(|byte| *byte == b'\t').nth(number).unwrap_or(b"")
}

pub(crate) fn number(row: &[u8], number: usize) -> Option<u32> {
    value(field(row, number))
}

// The value of decimal digits, of which there are few enough.
pub(crate) fn value(digits: &[u8]) -> Option<u32> {
    if digits.is_empty() {
        return None;
    }
    let mut value = 0;
    for byte in digits {
        if value >= 100000000 {
            return None;
        }
        value = value * 10 + u32::from(digit(*byte)?);
    }
    Some(value)
}

// The value of a digit.
pub(crate) fn digit(byte: u8) -> Option<u8> {
    match byte {
        b'0'..=b'9' => Some(byte - b'0'),
        _ => None,
    }
}
