// The names table: the commands' names in byte order, and the search of a word among them.
ghost use Rattle.std.specs.Prelude.{◌≡◌};
ghost use Rattle.answer.specs.Commands.{place_of};
ghost use Rattle.answer.specs.NameTable.{number_of, word_number};

use crate::command::{
    D, DW, I0, I1, I2, I3, I4, I5, M21, NONE, RESET, S, SI, SIR, SR, T, TA, TAC, TI, Z, ZI,
};

// A name as a number: its length, then its three bytes, 0 where it has none; and its place in I0's order.
#[derive(Clone, Copy)]
struct Name(u32, u8);

// In byte order, a prefix before the longer name, each once. Stays a table that is searched: names are found by their row (`name_rows`).
const NAMES: [Name; 20] = [
    Name(0x01_40_00_00, RESET), // @
    Name(0x01_44_00_00, D), // D
    Name(0x02_44_57_00, DW), // DW
    Name(0x02_49_30_00, I0), // I0
    Name(0x02_49_31_00, I1), // I1
    Name(0x02_49_32_00, I2), // I2
    Name(0x02_49_33_00, I3), // I3
    Name(0x02_49_34_00, I4), // I4
    Name(0x02_49_35_00, I5), // I5
    Name(0x03_4d_32_31, M21), // M21
    Name(0x01_53_00_00, S), // S
    Name(0x02_53_49_00, SI), // SI
    Name(0x03_53_49_52, SIR), // SIR
    Name(0x02_53_52_00, SR), // SR
    Name(0x01_54_00_00, T), // T
    Name(0x02_54_41_00, TA), // TA
    Name(0x03_54_41_43, TAC), // TAC
    Name(0x02_54_49_00, TI), // TI
    Name(0x01_5a_00_00, Z), // Z
    Name(0x02_5a_49_00, ZI), // ZI
];

fn joined(len: u8, first: u8, second: u8, third: u8) -> u32
    ensures { result ≡ number_of len first second third }
{
    u32::from_be_bytes([len, first, second, third])
}

// 0 for a word without bytes and one of over three, which is no name.
#[tactic(auto, using(crate::proofs::NameTable::one_byte, crate::proofs::NameTable::two_bytes, crate::proofs::NameTable::three_bytes, crate::proofs::NameTable::no_number_lem))]
fn key_of(word: &[u8]) -> u32
    ensures { result ≡ word_number word.now }
{
    match word {
        [a] => joined(1, *a, 0, 0),
        [a, b] => joined(2, *a, *b, 0),
        [a, b, c] => joined(3, *a, *b, *c),
        _ => 0,
    }
}

// The place of a name, and NONE for any other word.
pub fn find_command(word: &[u8]) -> u8
    ensures { result ≡ place_of word.now }
{
    let key = key_of(word);
    NAMES
        .iter()
        .find(|name| name.0 == key)
        .map_or(NONE, |name| name.1)
}
