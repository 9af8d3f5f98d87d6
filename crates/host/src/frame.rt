// The bytes of a line that its guess does not look at: separators, quotes and CR LF.
ghost use Rattle.std.specs.Prelude.{◌≡◌, ◌≤◌, length};
ghost use Rattle.forms.specs.Forms.{longest_line};
ghost use Rattle.host.specs.Frames.{is_ended, weight_frame, error_frame, quote_frame, text_frame, listed_frame, host_unit_frame, frame_of};
ghost use Rattle.text.specs.Searching.{before_space};

use crate::named_line::NamedLine;
use answer::{Answer, level_of};
use text::{byte_at, same_text};

pub fn is_ended(line: &[u8]) -> bool
    ensures { result ≡ is_ended line.now }
{
    let at = line.len().saturating_sub(2);
    byte_at(line, at) == b'\r' && byte_at(line, at + 1) == b'\n'
}

// The spaces on both sides of the ten characters.
fn is_weight_framed(line: NamedLine) -> bool
    ensures { result ≡ weight_frame (length (before_space line.entry.bytes.now)) line.entry.bytes.now }
{
    byte_at(line.bytes, line.name + 2) == b' ' && byte_at(line.bytes, line.name + 13) == b' '
}

fn is_error_framed(line: &[u8]) -> bool
    ensures { result ≡ error_frame line.now }
{
    matches!(line, [b'E', _, _, _])
}

// A space and a quote from `at` on, and the quote before CR LF.
fn is_quoted_from(line: &[u8], at: usize) -> bool
    requires { at ≤ longest_line }
    ensures { result ≡ quote_frame at line.now }
{
    let end = line.len().saturating_sub(3);
    byte_at(line, at) == b' ' && byte_at(line, at + 1) == b'"' && byte_at(line, end) == b'"'
}

fn is_text_framed(line: &[u8]) -> bool
    ensures { result ≡ text_frame line.now }
{
    9 <= line.len() && byte_at(line, 3) == b'A' && is_quoted_from(line, 4)
}

fn is_listed_framed(line: &[u8], last: bool, command: u8) -> bool
    ensures { result ≡ listed_frame last command line.now }
{
    (last || byte_at(line, 3) == b'B')
        && byte_at(line, 4) == b' '
        && byte_at(line, 5) == b'0' + level_of(command)
        && is_quoted_from(line, 6)
}

// A, a space, the zero and a space, before the code.
fn is_host_unit_framed(line: &[u8]) -> bool
    ensures { result ≡ host_unit_frame line.now }
{
    byte_at(line, 4) == b'A'
        && byte_at(line, 5) == b' '
        && byte_at(line, 6) == b'0'
        && byte_at(line, 7) == b' '
}

// Whether these bytes are what the answer's line has there.
#[tactic(auto, unfolding(answer::specs::Lines::line_of))]
pub fn is_framed(answer: Answer, line: NamedLine) -> bool
    ensures { result ≡ frame_of answer line.entry.bytes.now }
{
    match answer {
        Answer::Plain(_) => is_ended(line.bytes),
        Answer::Weight(_, _) => is_weight_framed(line) && is_ended(line.bytes),
        Answer::ErrorLine(_) => is_error_framed(line.bytes) && is_ended(line.bytes),
        Answer::Text(_) => is_text_framed(line.bytes) && is_ended(line.bytes),
        Answer::Listed(last, command) => {
            is_listed_framed(line.bytes, last, command) && is_ended(line.bytes)
        }
        Answer::Versions => same_text(b"I1 A \"0\" \"2.30\" \"2.20\"\r\n", line.bytes),
        Answer::HostUnit(_) => is_host_unit_framed(line.bytes) && is_ended(line.bytes),
        Answer::Nothing | Answer::CommandList => false,
    }
}
