// Searches through a line's bytes.
ghost use Rattle.std.specs.Prelude.{◌≡◌};
ghost use Rattle.line.specs.Judging.{has_control};

use classes::{CONTROLS, first_in};

// A byte below 32.
pub fn has_control(text: &[u8]) -> bool
    ensures { result ≡ has_control text.now }
{
    first_in(text, CONTROLS) < text.len()
}
