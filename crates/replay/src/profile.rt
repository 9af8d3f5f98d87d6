// What a line `text N TEXT` of the script sets in the profile: N says which text it is.
use model::{Profile, Text};

const WHICH: usize = 5;

const TEXT: usize = 7;

// A text of the script is at most as long as the profile's, so its length is one byte.
fn held<const N: usize>(text: &[u8]) -> Text<N> {
    let mut bytes = [0u8; N];
    for (cell, byte) in bytes.iter_mut().zip(text) {
        *cell = *byte;
    }
    Text {
        bytes,
        len: u8::try_from(text.len()).unwrap_or(0),
    }
}

pub fn with_text(profile: Profile, line: &[u8]) -> Profile {
    let Some(text) = line.get(TEXT..) else {
        return profile;
    };
    match line[WHICH] {
        b'2' => Profile {
            model: held(text),
            ..profile
        },
        b'3' => Profile {
            software: held(text),
            ..profile
        },
        b'4' => Profile {
            serial: held(text),
            ..profile
        },
        b'5' => Profile {
            release: held(text),
            ..profile
        },
        _ => profile,
    }
}
