// What a line of the script asks for. It is judged whole before anything is set or called.
ghost use Rattle.std.specs.Prelude.{◌≡◌, ◌≤◌, length};
ghost use Rattle.script.specs.Orders.{hex_order, load_order, call_order, lent_order, buffer_order, named_order, order_of, command_byte, sent_byte};
ghost use Rattle.script.specs.Words.{first_word};

use crate::hex::{are_bytes, hex_byte};
use crate::marked::are_marked;
use crate::number::{load_of, number_up_to};
use crate::profile::{
    LARGEST_WORD, Numbers, UnitNumbers, read_numbers, read_unit_numbers, text_fits,
};
use crate::words::{after_word, first_word, from, spaces_in};
use text::{byte_at, same_text};
use weight::Load;

const LARGEST_ROOM: u64 = 4096;

#[derive(Clone, Copy)]
pub enum Order {
    // An empty line or a comment.
    Nothing,
    On,
    // What the module holds that no answer shows. It calls nothing.
    State,
    // Other numbers in the profile.
    Numbers(Numbers),
    // Another limit of the fine range in the profile.
    Fine(u32),
    // Other decimals and another step of a unit in the profile.
    Unit(UnitNumbers),
    // Another text in the profile.
    Text,
    // The length of the buffer that is lent.
    Room(usize),
    // How many bytes, and whether they are marked faulty.
    Bytes(usize, bool),
    // How many bytes a whole-buffer call lends, and how many marks.
    Buffer(usize, usize),
    // A load, and whether it is marked stable.
    Sample(Load, bool),
}

// n bytes of two digits have n - 1 spaces between them.
fn hex_order(faulty: bool, rest: &[u8]) -> Option<Order>
    ensures { result ≡ hex_order faulty rest.now }
{
    are_bytes(rest).then_some(Order::Bytes(rest.len() / 3 + 1, faulty))
}

fn load_order(stable: bool, rest: &[u8]) -> Option<Order>
    ensures { result ≡ load_order stable rest.now }
{
    Some(Order::Sample(load_of(rest)?, stable))
}

// A letter, a space and the rest. The bytes of a command are as many as those of its line, with CR LF for the arrow and the space.
fn call_order(line: &[u8]) -> Option<Order>
    ensures { result ≡ call_order line.now }
{
    let rest = from(line, 2);
    match byte_at(line, 0) {
        b'b' => hex_order(false, rest),
        b'f' => hex_order(true, rest),
        b'>' => Some(Order::Bytes(line.len(), false)),
        b's' => load_order(true, rest),
        b'u' => load_order(false, rest),
        _ => None,
    }
}

// By its first word: as many marks as bytes, one fewer or one more.
fn lent_order(line: &[u8], count: usize) -> Option<Order>
    requires { count ≤ length line.now }
    ensures { result ≡ lent_order (first_word line.now) count }
{
    let name = first_word(line);
    if same_text(name, b"w") {
        Some(Order::Buffer(count, count))
    } else if same_text(name, b"w-") {
        Some(Order::Buffer(count, count.checked_sub(1)?))
    } else if same_text(name, b"w+") {
        Some(Order::Buffer(count, count + 1))
    } else {
        None
    }
}

// Each word after the first is a byte.
fn buffer_order(line: &[u8]) -> Option<Order>
    ensures { result ≡ buffer_order line.now }
{
    let count = spaces_in(line);
    if are_marked(after_word(line), count) {
        lent_order(line, count)
    } else {
        None
    }
}

// By its first word.
fn named_order(on: bool, line: &[u8]) -> Option<Order>
    ensures { result ≡ named_order on line.now }
{
    let name = first_word(line);
    let rest = after_word(line);
    if same_text(name, b"profile") {
        Some(Order::Numbers(read_numbers(rest)?))
    } else if same_text(name, b"unit") {
        Some(Order::Unit(read_unit_numbers(rest)?))
    } else if same_text(name, b"text") {
        text_fits(rest).then_some(Order::Text)
    } else if same_text(name, b"room") {
        Some(Order::Room(number_up_to(LARGEST_ROOM, rest)? as usize))
    } else if same_text(name, b"fine") {
        Some(Order::Fine(number_up_to(LARGEST_WORD, rest)? as u32))
    } else if on && name.len() == 1 {
        call_order(line)
    } else {
        None
    }
}

// None for a line that is none of the script's. `on` says whether a power-on was granted: before that, a line that calls the module or
// asks for its state is none.
pub fn order_of(on: bool, line: &[u8]) -> Option<Order>
    ensures { result ≡ order_of on line.now }
{
    let first = byte_at(line, 0);
    if line.is_empty() || first == b'#' {
        Some(Order::Nothing)
    } else if same_text(line, b"on") {
        Some(Order::On)
    } else if on && same_text(line, b"state") {
        Some(Order::State)
    } else if on && first == b'w' {
        buffer_order(line)
    } else if line.contains(&b' ') {
        named_order(on, line)
    } else {
        None
    }
}

// The rest of the line, then CR and LF.
fn command_byte(rest: &[u8], i: usize) -> u8
    ensures { result ≡ command_byte rest.now i }
{
    if i < rest.len() {
        rest[i]
    } else if i == rest.len() {
        b'\r'
    } else {
        b'\n'
    }
}

// The byte of place `i` among those that a line of `b`, `f` or `>` sends.
pub fn sent_byte(line: &[u8], i: usize) -> u8
    ensures { result ≡ sent_byte line.now i }
{
    let rest = from(line, 2);
    if byte_at(line, 0) == b'>' {
        command_byte(rest, i)
    } else {
        hex_byte(rest, i).unwrap_or(0)
    }
}
