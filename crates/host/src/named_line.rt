// A line with the name before its first space.
ghost use Rattle.std.specs.Prelude.{◌≡◌, ◌≤◌, length};
ghost use Rattle.answer.specs.Commands.{place_of};
ghost use Rattle.forms.specs.Forms.{longest_line};
ghost use Rattle.text.specs.Searching.{before_space};

use answer::find_command;
use text::first_space;

// `name` is how many bytes stand before the first space, all of them where there is none, and `command` the place of that name.
#[derive(Clone, Copy)]
pub struct NamedLine<'a> {
    pub bytes: &'a [u8],
    pub name: usize,
    pub command: u8,
    ghost named: { name ≡ length (before_space bytes.now) },
    ghost within: { name ≤ length bytes.now },
    ghost placed: { command ≡ place_of (before_space bytes.now) },
    ghost short: { length bytes.now ≤ longest_line },
}

impl<'a> NamedLine<'a> {
    pub fn new(bytes: &'a [u8]) -> Self
        requires { length bytes.now ≤ longest_line }
        ensures { result.bytes.now ≡ bytes.now }
    {
        let name = first_space(bytes);
        NamedLine {
            bytes,
            name,
            command: find_command(&bytes[..name]),
        }
    }
}
