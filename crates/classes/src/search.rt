// Searches through a text. A set of classes has the bit of each of its classes, and stays a byte: `first_in` answers every byte.
ghost use Rattle.std.specs.Prelude.{◌≡◌, Bool};
ghost use Rattle.classes.specs.Classes.{among, first_in};

use crate::table::class_of;

pub const DIGITS: u8 = 1;

pub const SPACES: u8 = 4;

pub const QUOTES: u8 = 8;

pub const POINTS: u8 = 16;

pub const CONTROLS: u8 = 64;

pub const ALL: u8 = 255;

fn is_among(classes: u8, byte: u8) -> bool
    ensures { result ≡ among classes byte }
{
    ((classes >> class_of(byte)) & 1) == 1
}

// How many bytes stand before the first one whose class is among them; all of them where there is none.
pub fn first_in(text: &[u8], classes: u8) -> usize
    ensures { result ≡ first_in classes text.now }
{
    text.iter()
        .position(|byte| is_among(classes, *byte))
        .unwrap_or(text.len())
}
