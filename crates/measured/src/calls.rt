// Calls of the module, by records of eight bytes: what is called, the mark, the room lent (low byte first), and four bytes with the
// received byte, the load, the place of a profile or the size of a whole buffer.
ghost use Rattle.std.specs.Prelude.{◌≤◌};

use crate::profile::profile_at;
use crate::sums::{Sums, with_bytes, with_number};
use device::{Called, power_on, take_byte, take_sample};
use model::{Profile, Refusal, State, start_state};
use text::part;
use weight::Load;

pub const RECORD: usize = 8;

#[derive(Clone, Copy)]
pub enum Order {
    // A byte, and whether it is marked faulty.
    Byte(u8, bool),
    // A load, and whether it is marked stable.
    Sample(Load, bool),
    PowerOn,
    // The profile of the calls that follow.
    Profile(u32),
    // Of `measured_buffers`; a power-on here.
    Buffer(u32),
}

// The numbers of the kinds are those of tests/benchmark, which makes the records.
pub fn order_of(record: &[u8; RECORD]) -> Order {
    let [kind, mark, _, _, a, b, c, d] = *record;
    let marked = mark != 0;
    let number = u32::from_le_bytes([a, b, c, d]);
    match kind {
        0 => Order::Byte(a, marked),
        1 => Order::Sample(Load(number.cast_signed()), marked),
        3 => Order::Profile(number),
        4 => Order::Buffer(number),
        _ => Order::PowerOn,
    }
}

// No more than there is.
pub fn room_of(record: &[u8; RECORD], most: usize) -> usize
    ensures { result ≤ most }
{
    most.min(usize::from(u16::from_le_bytes([record[2], record[3]])))
}

pub fn called(profile: Profile, state: State, order: Order, lent: &mut [u8]) -> Called {
    match order {
        Order::Byte(byte, faulty) => take_byte(profile, state, byte, faulty, lent),
        Order::Sample(load, stable) => take_sample(profile, state, load, stable, lent),
        Order::PowerOn | Order::Profile(_) | Order::Buffer(_) => power_on(profile, state, lent),
    }
}

// The refusal number, 0 for none, and the count.
pub fn with_call(sums: Sums, outcome: Result<usize, Refusal>) -> Sums {
    let number = match outcome {
        Ok(_) => 0,
        Err(refusal) => refusal as u64,
    };
    with_number(with_number(sums, number), outcome.unwrap_or(0) as u64)
}

pub fn added(sums: Sums, outcome: Result<usize, Refusal>, out: &[u8]) -> Sums {
    with_bytes(with_call(sums, outcome), part(out, 0, outcome.unwrap_or(0)))
}

// The checksum of every refusal number, count and answer.
pub fn proved_calls(profiles: &[u8], script: &[u8], out: &mut [u8]) -> u64 {
    let mut profile = profile_at(profiles, 0);
    let mut state = start_state();
    let mut sums = Sums::default();
    for record in script.as_chunks::<RECORD>().0 {
        let room = room_of(record, out.len());
        match order_of(record) {
            Order::Profile(n) => profile = profile_at(profiles, n),
            order => {
                let returned = called(profile, state, order, &mut out[..room]);
                state = returned.state;
                sums = added(sums, returned.outcome, out);
            }
        }
    }
    sums.high
}
