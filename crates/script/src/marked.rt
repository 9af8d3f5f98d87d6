// The words of a whole-buffer call: two hexadecimal digits each, with `!` after those of a faulty byte.
ghost use Rattle.std.specs.Prelude.{◌≡◌, ℕ, List, length};
ghost use Rattle.script.specs.Marked.{is_marked, are_marked, mark_of, byte_of, byte_at, mark_at, first_of};
ghost use Rattle.script.specs.Words.{after_word, word_at};

use crate::hex::{digit, hex_byte};
use crate::words::{after_word, first_word};
use text::byte_at;

fn is_marked(word: &[u8]) -> bool
    ensures { result ≡ is_marked word.now }
{
    match word {
        [high, low] | [high, low, b'!'] => digit(*high).is_some() && digit(*low).is_some(),
        _ => false,
    }
}

// Whether the first `count` words of a text are such words.
pub fn are_marked(text: &[u8], count: usize) -> bool
    ensures { result ≡ are_marked count text.now }
{
    let mut good = true;
    let mut rest = text;
    for _ in 0..count {
        good &= is_marked(first_word(rest));
        rest = after_word(rest);
    }
    good
}

// The mark of a word at place `i`: 0 is good, and the faulty ones have every other mark in turn.
fn mark_of(word: &[u8], i: usize) -> u8
    ensures { result ≡ mark_of word.now i }
{
    if byte_at(word, 2) == b'!' {
        (i % 255) as u8 + 1
    } else {
        0
    }
}

// A cell for each word after a line's first and its place, as many as the buffer holds.
fn put_cells<F: Fn(&[u8], usize) -> u8>(line: &[u8], cells: &mut [u8], cell: F)
    requires { F.IsAlwaysCallable cell }
    ensures { (at : List ℕ → ℕ → ℕ) → ((w : _) (i r : ℕ) → F.post cell w i r → r ≡ at w.now i) → cells.new ≡ first_of (λ i. at (word_at i (after_word line.now)) i) (length cells.old) }
{
    let mut rest = after_word(line);
    for i in 0..cells.len() {
        cells[i] = cell(first_word(rest), i);
        rest = after_word(rest);
    }
}

// The bytes of a line's words, as many as the buffer holds.
pub fn put_bytes(line: &[u8], bytes: &mut [u8])
    ensures { bytes.new ≡ first_of (byte_at (after_word line.now)) (length bytes.old) }
{
    put_cells(line, bytes, |word, _| hex_byte(word, 0).unwrap_or(0));
}

// The marks of a line's words, as many as the buffer holds: 0 past the last word.
pub fn put_marks(line: &[u8], marks: &mut [u8])
    ensures { marks.new ≡ first_of (mark_at (after_word line.now)) (length marks.old) }
{
    put_cells(line, marks, mark_of);
}
