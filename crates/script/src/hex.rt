// Bytes of two hexadecimal digits each, with one space between them.
ghost use Rattle.std.specs.Prelude.{◌≡◌};
ghost use Rattle.script.specs.Hex.{hex_digit, can_stand, are_hex, two_digits, hex_byte};

use text::byte_at;

pub fn digit(byte: u8) -> Option<u8>
    ensures { result ≡ hex_digit byte }
{
    match byte {
        b'0'..=b'9' => Some(byte - b'0'),
        b'A'..=b'F' => Some(byte - b'A' + 10),
        b'a'..=b'f' => Some(byte - b'a' + 10),
        _ => None,
    }
}

// Whether the byte can stand at place `i`: a digit, a digit, a space, again and again.
fn stands(i: usize, byte: u8) -> bool
    ensures { result ≡ can_stand i byte }
{
    if i % 3 == 2 {
        byte == b' '
    } else {
        digit(byte).is_some()
    }
}

pub fn are_bytes(text: &[u8]) -> bool
    ensures { result ≡ are_hex text.now }
{
    if text.len() % 3 != 2 {
        return false;
    }
    for (i, byte) in text.iter().enumerate() {
        if !stands(i, *byte) {
            return false;
        }
    }
    true
}

fn joined(high: u8, low: u8) -> Option<u8>
    ensures { result ≡ two_digits high low }
{
    let tens = digit(high)?;
    Some(tens * 16 + digit(low)?)
}

// The byte whose digits stand at 3 x `i`; none past the end.
pub fn hex_byte(text: &[u8], i: usize) -> Option<u8>
    ensures { result ≡ hex_byte text.now i }
{
    let high = text.get(i.checked_mul(3)?)?;
    joined(*high, byte_at(text, i * 3 + 1))
}
