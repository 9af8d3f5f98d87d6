// Document 01's refusal numbers 3 and 4: the buffer is shorter than the line; no answer forms the line.
#[derive(Clone, Copy, PartialEq)]
pub enum Refusal {
    Room,
    Form,
}
