// What is printed for a piece.
use answer::{Answer, Head, Number, level_of, name_of};
use host::{read_line, write_line};
use std::io;
use text::{field_cells, field_of, part, unit_text};
use weight::{LastPlaces, WeightUnit};

fn space(rt: &impl Print) -> io::Result<()> {
    rt.write_all(b" ")
}

fn end(rt: &impl Print) -> io::Result<()> {
    rt.write_all(b"\r\n")
}

// As a field with no decimals, which holds every number that a field with some holds.
fn whole(rt: &impl Print, places: LastPlaces) -> io::Result<()> {
    let field = field_cells(field_of(0, places, false));
    rt.write_all(field.trim_ascii_start())
}

// The range that the weight was printed in: a word for the coarse one alone.
fn range(rt: &impl Print, coarse: bool) -> io::Result<()> {
    if coarse {
        rt.write_all(b" coarse")
    } else {
        Ok(())
    }
}

fn weight(rt: &impl Print, head: Head, number: Number) -> io::Result<()> {
    rt.write_all(b"weight ")?;
    rt.write_all(name_of(head.identification))?;
    space(rt)?;
    rt.write_all(&[u8::from(head.status)])?;
    space(rt)?;
    whole(rt, number.places)?;
    space(rt)?;
    rt.print(number.decimals)?;
    space(rt)?;
    rt.write_all(unit_text(number.unit))?;
    range(rt, number.coarse)?;
    end(rt)
}

fn information(rt: &impl Print, command: u8, text: &[u8]) -> io::Result<()> {
    rt.write_all(b"text ")?;
    rt.write_all(name_of(command))?;
    space(rt)?;
    rt.write_all(text)?;
    end(rt)
}

fn listed(rt: &impl Print, last: bool, command: u8) -> io::Result<()> {
    rt.write_all(b"command ")?;
    rt.write_all(if last { b"A " } else { b"B " })?;
    rt.print(level_of(command))?;
    space(rt)?;
    rt.write_all(name_of(command))?;
    end(rt)
}

// The unit in force.
fn unit(rt: &impl Print, unit: WeightUnit) -> io::Result<()> {
    rt.write_all(b"unit ")?;
    rt.write_all(unit_text(unit))?;
    end(rt)
}

fn tell_answer(rt: &impl Print, answer: Answer, text: &[u8], line: &[u8]) -> io::Result<()> {
    match answer {
        Answer::Weight(head, number) => weight(rt, head, number),
        Answer::Text(command) => information(rt, command, text),
        Answer::Listed(last, command) => listed(rt, last, command),
        Answer::HostUnit(measure) => unit(rt, measure),
        _ => {
            rt.write_all(b"answer ")?;
            rt.write_all(line)
        }
    }
}

// Whether the writer makes the same line again.
fn is_written_again(answer: Answer, text: &[u8], line: &[u8]) -> bool {
    let mut again = [0u8; 64];
    let count = write_line(answer, text, &mut again).unwrap_or(0);
    part(&again, 0, count) == line
}

pub fn tell_refused(rt: &impl Print) -> io::Result<()> {
    rt.write_all(b"refused 4\r\n")
}

pub fn tell(rt: &impl Print, line: &[u8]) -> io::Result<()> {
    let Ok(read) = read_line(line) else {
        return tell_refused(rt);
    };
    let text = part(line, read.text.start, read.text.len);
    tell_answer(rt, read.answer, text, line)?;
    if is_written_again(read.answer, text, line) {
        Ok(())
    } else {
        rt.write_all(b"differs\r\n")
    }
}
