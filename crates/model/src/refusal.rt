// Why a call is refused, as document 01's refusal numbers 1, 2 and 3, and 5 of document 02, No. 2.
#[derive(Clone, Copy, PartialEq, Eq)]
pub enum Refusal {
    Profile = 1,
    State = 2,
    Room = 3,
    Lengths = 5,
}
