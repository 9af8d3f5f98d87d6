// Parts of a text, and bytes of a buffer.

// The byte at place `at`, where there is one. Answers the next place; the end again at the end.
pub fn put(line: &mut [u8], at: usize, byte: u8) -> usize {
    if at < line.len() {
        line[at] = byte;
        at + 1
    } else {
        at
    }
}

// The first `count` bytes; nothing where there are fewer.
pub fn first(text: &[u8], count: usize) -> &[u8] {
    text.get(..count).unwrap_or(&[])
}

// The same of a buffer to be written.
pub fn first_cells(cells: &mut [u8], count: usize) -> &mut [u8] {
    cells.get_mut(..count).unwrap_or(&mut [])
}
