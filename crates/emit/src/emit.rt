// Rendering an answer into a lent buffer: its length first, then its pieces one after another, straight into the buffer.
ghost use Rattle.std.specs.Prelude.{◌≡◌, [], ◌∷◌, ◌++◌, ◌+◌, ◌≤◌, length};
ghost use Rattle.answer.specs.Commands.{name_of, command_count};
ghost use Rattle.answer.specs.Lines.{line_end, quoted, head_text, weight_text, error_text, listed_line, listed_from, line_of};
ghost use Rattle.text.specs.Ascii.{ascii};
ghost use Rattle.text.specs.UnitTexts.{unit_code};
ghost use Rattle.emit.specs.Pieces.{joined, Laid};
ghost use Rattle.emit.specs.Rooms.{emitted, laid_in};

use answer::{
    Answer, Error, Head, LAST, LIST_LENGTH, LISTED_LENGTH, NONE, Number, level_of, name_length,
    name_of,
};
use text::{field_cells, field_of, unit_code, unit_text};
use weight::WeightUnit;

// Stays a loop: `copy_from_slice` asks the C library for `memmove`, which a caller that links the static library may not have.
fn copy(cells: &mut [u8], piece: &[u8])
    requires { length cells.old ≡ length piece.now }
    ensures { cells.new ≡ piece.now }
{
    for (i, cell) in cells.iter_mut().enumerate() {
        *cell = piece[i];
    }
}

// Copies the pieces one after another from `at` on; answers where the next one goes.
// Stays `out` and `at`: a struct with the `&mut` would ask each function for a clause that it still is this buffer.
fn put(out: &mut [u8], at: usize, pieces: &[&[u8]]) -> usize
    requires { at + length (joined pieces.now) ≤ length out.old }
    ensures { Laid out.old at out.new result (joined pieces.now) }
{
    let mut end = at;
    for piece in pieces {
        let start = end;
        end += piece.len();
        copy(&mut out[start..end], piece);
    }
    end
}

#[tactic(auto, unfolding(answer::specs::Lines::head_text))]
fn put_plain(out: &mut [u8], head: Head) -> usize
    requires { length (head_text head ++ line_end) ≤ length out.old }
    ensures { Laid out.old 0 out.new result (head_text head ++ line_end) }
{
    let tail = [b' ', u8::from(head.status), b'\r', b'\n'];
    put(out, 0, &[name_of(head.identification), &tail])
}

// The number: ten characters, space, unit.
#[tactic(auto, unfolding(answer::specs::Lines::head_text, answer::specs::Lines::weight_text))]
fn put_weight(out: &mut [u8], head: Head, number: Number) -> usize
    requires { length (head_text head ++ ascii " " ++ weight_text number ++ line_end) ≤ length out.old }
    ensures { Laid out.old 0 out.new result (head_text head ++ ascii " " ++ weight_text number ++ line_end) }
{
    let middle = [b' ', u8::from(head.status), b' '];
    let field = field_cells(field_of(number.decimals, number.places, number.coarse));
    put(
        out,
        0,
        &[
            name_of(head.identification),
            &middle,
            &field,
            b" ",
            unit_text(number.unit),
            b"\r\n",
        ],
    )
}

fn put_error(out: &mut [u8], error: Error) -> usize
    requires { length (error_text error ++ line_end) ≤ length out.old }
    ensures { Laid out.old 0 out.new result (error_text error ++ line_end) }
{
    put(out, 0, &[&[b'E', u8::from(error), b'\r', b'\n']])
}

// Three calls: one array takes no borrow of the caller's text beside the constants.
fn put_text(out: &mut [u8], command: u8, text: &[u8]) -> usize
    requires { length (name_of command ++ ascii " A " ++ quoted text.now ++ line_end) ≤ length out.old }
    ensures { Laid out.old 0 out.new result (name_of command ++ ascii " A " ++ quoted text.now ++ line_end) }
{
    let next = put(out, 0, &[name_of(command), b" A \""]);
    let end = put(out, next, &[text]);
    put(out, end, &[b"\"\r\n"])
}

// What M21 tells: the unit by its code.
fn put_host_unit(out: &mut [u8], unit: WeightUnit) -> usize
    requires { length (ascii "M21 A 0 " ++ unit_code unit ++ line_end) ≤ length out.old }
    ensures { Laid out.old 0 out.new result (ascii "M21 A 0 " ++ unit_code unit ++ line_end) }
{
    put(out, 0, &[b"M21 A 0 ", unit_code(unit), b"\r\n"])
}

// B, but A in the last line of I0.
#[tactic(auto, unfolding(answer::specs::Lines::listed_line))]
fn put_listed(out: &mut [u8], at: usize, last: bool, command: u8) -> usize
    requires { at + length (listed_line last command) ≤ length out.old }
    ensures { Laid out.old at out.new result (listed_line last command) }
{
    let status = if last { b'A' } else { b'B' };
    let level = b'0' + level_of(command);
    put(
        out,
        at,
        &[
            b"I0 ",
            &[status, b' ', level],
            b" \"",
            name_of(command),
            b"\"\r\n",
        ],
    )
}

fn put_list(out: &mut [u8]) -> usize
    requires { length (listed_from command_count 0) ≤ length out.old }
    ensures { Laid out.old 0 out.new result (listed_from command_count 0) }
{
    let mut next = 0;
    for command in 0..NONE {
        next = put_listed(out, next, command == LAST, command);
    }
    next
}

// How long the line is.
#[tactic(auto, using(answer::proofs::Lengths::line_lengths))]
fn line_length(answer: Answer, text: &[u8]) -> usize
    ensures { result ≡ length (line_of answer text.now) }
{
    match answer {
        Answer::Nothing => 0,
        Answer::Plain(head) => name_length(head.identification) + 4,
        Answer::Weight(head, number) => {
            name_length(head.identification) + unit_text(number.unit).len() + 16
        }
        Answer::ErrorLine(_) => 4,
        Answer::Text(command) => name_length(command) + text.len() + 7,
        Answer::Listed(_, command) => name_length(command) + LISTED_LENGTH,
        Answer::CommandList => LIST_LENGTH,
        Answer::Versions => 24,
        Answer::HostUnit(unit) => unit_code(unit).len() + 10,
    }
}

#[tactic(auto, unfolding(answer::specs::Lines::line_of))]
fn put_answer(out: &mut [u8], answer: Answer, text: &[u8]) -> usize
    requires { length (line_of answer text.now) ≤ length out.old }
    ensures { Laid out.old 0 out.new result (line_of answer text.now) }
{
    match answer {
        Answer::Nothing => 0,
        Answer::Plain(head) => put_plain(out, head),
        Answer::Weight(head, number) => put_weight(out, head, number),
        Answer::ErrorLine(error) => put_error(out, error),
        Answer::Text(command) => put_text(out, command, text),
        Answer::Listed(last, command) => put_listed(out, 0, last, command),
        Answer::CommandList => put_list(out),
        Answer::Versions => put(out, 0, &[b"I1 A \"0\" \"2.30\" \"2.20\"\r\n"]),
        Answer::HostUnit(unit) => put_host_unit(out, unit),
    }
}

// Writes the line where it fits the buffer, and nothing where it does not: the line's length, if it had room.
#[tactic(auto, using(crate::proofs::Laying::line_stands), unfolding(crate::specs::Rooms::emitted, crate::specs::Rooms::laid_in))]
pub fn emit_answer(answer: Answer, text: &[u8], out: &mut [u8]) -> Option<usize>
    ensures value { result ≡ emitted (line_of answer text.now) out.old }
    ensures out_after { out.new ≡ laid_in (line_of answer text.now) out.old }
{
    if line_length(answer, text) <= out.len() {
        Some(put_answer(out, answer, text))
    } else {
        None
    }
}
