// The commands, each known by its place in the order in which I0 lists them.
// Stays a u8: `name_of`, `level_of`, `find_command` and `emit_answer` answer every number, one that is no command's too.
ghost use Rattle.std.specs.Prelude.{◌≡◌, ◌≤◌, length};
ghost use Rattle.answer.specs.Commands.{name_of, level_of, kind_of, takes_parameters, needs_sample, may_wait, has_text};

pub const I0: u8 = 0;

pub const I1: u8 = I0 + 1;

pub const I2: u8 = I1 + 1;

pub const I3: u8 = I2 + 1;

pub const I4: u8 = I3 + 1;

pub const I5: u8 = I4 + 1;

pub const S: u8 = I5 + 1;

pub const SI: u8 = S + 1;

pub const SIR: u8 = SI + 1;

pub const Z: u8 = SIR + 1;

pub const ZI: u8 = Z + 1;

pub const RESET: u8 = ZI + 1;

pub const D: u8 = RESET + 1;

pub const DW: u8 = D + 1;

pub const SR: u8 = DW + 1;

pub const T: u8 = SR + 1;

pub const TA: u8 = T + 1;

pub const TAC: u8 = TA + 1;

pub const TI: u8 = TAC + 1;

pub const M21: u8 = TI + 1;

pub const LAST: u8 = M21;

// The place of what is no command: as many as there are.
pub const NONE: u8 = LAST + 1;

// A line of I0 has its name and this many bytes; all of them together have the names' letters, too.
pub const LISTED_LENGTH: usize = 11;

const LETTERS: usize = 38;

pub const LIST_LENGTH: usize = NONE as usize * LISTED_LENGTH + LETTERS;

// What a command does. `Sends` is SR's, which sends on change; `Selects` is M21's, which selects the unit; `Unknown` is what is no
// command's; it stays a kind, since `kind_of` gives every number one.
#[derive(Clone, Copy, PartialEq)]
pub enum Kind {
    Informs,
    Weighs,
    Zeroes,
    Resets,
    Shows,
    Sends,
    Tares,
    Selects,
    Unknown,
}

// Past the end there is no name.
pub fn name_of(command: u8) -> &'static [u8]
    ensures { result.now ≡ name_of command }
{
    match command {
        I0 => b"I0",
        I1 => b"I1",
        I2 => b"I2",
        I3 => b"I3",
        I4 => b"I4",
        I5 => b"I5",
        S => b"S",
        SI => b"SI",
        SIR => b"SIR",
        Z => b"Z",
        ZI => b"ZI",
        RESET => b"@",
        D => b"D",
        DW => b"DW",
        SR => b"SR",
        T => b"T",
        TA => b"TA",
        TAC => b"TAC",
        TI => b"TI",
        M21 => b"M21",
        _ => b"",
    }
}

// How many bytes the name has: at most three.
#[tactic(auto, using(crate::proofs::Names::name_short))]
pub fn name_length(command: u8) -> usize
    ensures value { result ≡ length (name_of command) }
    ensures upper_bound { result ≤ 3 }
{
    name_of(command).len()
}

pub fn level_of(command: u8) -> u8
    ensures { result ≡ level_of command }
{
    match command {
        I0..=RESET => 0,
        D..=TI => 1,
        _ => 2,
    }
}

// The commands of a kind stand together in I0's order.
pub fn kind_of(command: u8) -> Kind
    ensures { result ≡ kind_of command }
{
    match command {
        I0..=I5 => Kind::Informs,
        S..=SIR => Kind::Weighs,
        Z..=ZI => Kind::Zeroes,
        RESET => Kind::Resets,
        D..=DW => Kind::Shows,
        SR => Kind::Sends,
        T..=TI => Kind::Tares,
        M21 => Kind::Selects,
        _ => Kind::Unknown,
    }
}

pub fn takes_parameters(command: u8) -> bool
    ensures { result ≡ takes_parameters command }
{
    matches!(command, D | SR | TA | M21)
}

pub fn needs_sample(command: u8) -> bool
    ensures { result ≡ needs_sample command }
{
    matches!(command, SI | SIR | ZI | TI)
}

pub fn may_wait(command: u8) -> bool
    ensures { result ≡ may_wait command }
{
    matches!(command, S | Z | SR | T)
}

// I2 to I5, whose answer is a text.
pub fn has_text(command: u8) -> bool
    ensures { result ≡ has_text command }
{
    matches!(command, I2..=I5)
}
