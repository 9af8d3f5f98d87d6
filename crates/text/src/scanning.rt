// Comparing texts, searching them for a byte, and their bytes and parts. Past the end there are none.
ghost use Rattle.std.specs.Prelude.{◌≡◌, get_or, take, drop};
ghost use Rattle.text.specs.Ascii.{same_text};
ghost use Rattle.text.specs.Printable.{is_printable};
ghost use Rattle.text.specs.Searching.{FirstAt};
ghost use Rattle.weight.specs.Characters.{space};

use classes::{CONTROLS, QUOTES, SPACES, first_in};

pub fn same_text(a: &[u8], b: &[u8]) -> bool
    ensures { result ≡ same_text a.now b.now }
{
    a == b
}

// Where the first `b` is; the length where there is none.
pub fn first_at(text: &[u8], b: u8) -> usize
    ensures { FirstAt b text.now result }
{
    text.iter().position(|c| *c == b).unwrap_or(text.len())
}

// A byte; 0 past the end.
pub fn byte_at(text: &[u8], i: usize) -> u8
    ensures { result ≡ get_or text.now i 0 }
{
    text.get(i).copied().unwrap_or(0)
}

// At most `count` bytes from `start` on.
pub fn part(text: &[u8], start: usize, count: usize) -> &[u8]
    ensures { result.now ≡ take count (drop start text.now) }
{
    let rest = &text[start.min(text.len())..];
    &rest[..count.min(rest.len())]
}

// Where the first space is; the length where there is none.
pub fn first_space(text: &[u8]) -> usize
    ensures { FirstAt space text.now result }
{
    first_in(text, SPACES)
}

const UNPRINTABLE: u8 = CONTROLS + QUOTES;

// Bytes 32 to 255 without 34.
pub fn is_printable(text: &[u8]) -> bool
    ensures { result ≡ is_printable text.now }
{
    text.len() <= first_in(text, UNPRINTABLE)
}
