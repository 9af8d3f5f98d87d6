// Lines read, or read and written again, from records of 64 bytes: the line's length, and the line.
use crate::sums::{Sums, with_bytes, with_number};
use answer::Answer;
use host::{read_line, write_line};
use text::part;
use weight::nanograms_of;

const RECORD: usize = 64;

// What the checksum takes of a line: what was read, the unit, the length of the text and the value, which may be below zero. The numbers
// are those of tests/benchmark, whose checksum has to be the same; a refused line has none.
#[derive(Clone, Copy, Default)]
struct Digest {
    head: u32,
    unit: u64,
    len: usize,
    value: i64,
}

fn simple(kind: u8, first: u8, second: u8, len: usize) -> Digest {
    Digest {
        head: u32::from_le_bytes([kind, first, second, 0]),
        len,
        ..Digest::default()
    }
}

fn digest_of(answer: Answer, len: usize) -> Digest {
    match answer {
        Answer::Nothing => simple(9, 0, 0, len),
        Answer::Plain(head) => simple(1, head.identification, head.status as u8, len),
        Answer::Weight(head, number) => Digest {
            head: u32::from_le_bytes([
                if number.coarse { 10 } else { 2 },
                head.identification,
                head.status as u8,
                number.decimals,
            ]),
            unit: nanograms_of(number.unit).0,
            len,
            value: number.places.0,
        },
        Answer::ErrorLine(error) => simple(3, error as u8, 0, len),
        Answer::Text(command) => simple(4, command, 0, len),
        Answer::Listed(last, command) => simple(5, command, last as u8, len),
        Answer::CommandList => simple(8, 0, 0, len),
        Answer::Versions => simple(6, 0, 0, len),
        Answer::HostUnit(unit) => Digest {
            unit: nanograms_of(unit).0,
            ..simple(7, 0, 0, len)
        },
    }
}

// The line of a record, after its length.
fn line_of(record: &[u8; RECORD]) -> &[u8] {
    part(record, 1, record[0] as usize)
}

fn read_digest(line: &[u8]) -> Digest {
    match read_line(line) {
        Ok(read) => digest_of(read.answer, read.text.len),
        Err(_) => Digest::default(),
    }
}

fn with_digest(sums: Sums, digest: Digest) -> Sums {
    let headed = with_number(sums, digest.head as u64);
    let united = with_number(headed, digest.unit);
    with_number(united, digest.len as u64)
}

// The checksum of what the reader makes of each line; the values go to `values`.
pub fn proved_lines(lines: &[u8], values: &mut i64) -> u64 {
    let mut sums = Sums::default();
    let mut all = 0;
    for record in lines.as_chunks::<RECORD>().0 {
        let digest = read_digest(line_of(record));
        sums = with_digest(sums, digest);
        all ^= digest.value;
    }
    *values = all;
    sums.high
}

// How many bytes the writer writes of what was read. A refused line counts as an empty one.
fn rewritten(line: &[u8], out: &mut [u8]) -> Option<usize> {
    let read = read_line(line).ok()?;
    write_line(read.answer, part(line, read.text.start, read.text.len), out).ok()
}

// The checksum of each line that was read, as the writer writes it.
pub fn proved_rewritten(lines: &[u8], out: &mut [u8]) -> u64 {
    let mut sums = Sums::default();
    for record in lines.as_chunks::<RECORD>().0 {
        let count = rewritten(line_of(record), out).unwrap_or(0);
        sums = with_bytes(with_number(sums, count as u64), part(out, 0, count));
    }
    sums.high
}
