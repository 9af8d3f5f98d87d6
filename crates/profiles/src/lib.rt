// Document 01's profile A, which the programs share.
#![tactic(auto)]

ghost use Rattle.std.specs.Prelude.{◌≡◌};
ghost use Rattle.profiles.specs.ProfileA.{no_text, serial_a, readability_a, profile_a};

use model::{Profile, Readability, Text};

fn no_text<const N: usize>() -> Text<N>
    ensures { result ≡ no_text N }
{
    Text {
        bytes: [0; N],
        len: 0,
    }
}

fn serial() -> Text<20>
    ensures { result ≡ serial_a }
{
    Text {
        bytes: *b"VA-0001             ",
        len: 7,
    }
}

fn readability() -> [Readability; 9]
    ensures { result ≡ readability_a }
{
    let other = Readability {
        decimals: 2,
        step: 1,
    };
    let mut rows = [other; 9];
    rows[0] = Readability {
        decimals: 4,
        step: 1,
    };
    rows
}

pub fn profile_a() -> Profile
    ensures { result ≡ profile_a }
{
    Profile {
        capacity: 220_000_000,
        fine: 220_000_000,
        underload: 1_000_000,
        zeroing: 4_400_000,
        timeout: 3,
        readability: readability(),
        model: no_text(),
        software: no_text(),
        serial: serial(),
        release: no_text(),
    }
}
