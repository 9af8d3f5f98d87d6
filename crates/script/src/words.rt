// The words of a line, with one space between them. Past the end there are none.
ghost use Rattle.std.specs.Prelude.{◌≡◌, ◌≤◌, drop, length};
ghost use Rattle.script.specs.Words.{first_word, after_word, spaces_in};

use text::first_space;

// Everything from `start` on.
pub fn from(text: &[u8], start: usize) -> &[u8]
    ensures { result.now ≡ drop start text.now }
{
    &text[start.min(text.len())..]
}

pub fn first_word(text: &[u8]) -> &[u8]
    ensures { result.now ≡ first_word text.now }
{
    &text[..first_space(text)]
}

// What follows the first space.
pub fn after_word(text: &[u8]) -> &[u8]
    ensures { result.now ≡ after_word text.now }
{
    from(text, first_space(text) + 1)
}

// As many words follow the first.
pub fn spaces_in(text: &[u8]) -> usize
    ensures value { result ≡ spaces_in text.now }
    ensures upper_bound { result ≤ length text.now }
{
    text.iter().filter(|c| **c == b' ').count()
}
