// The whole-buffer call behind one function on byte slices, for the benchmark. It is a crate and, as `measured_buffers_c`, a static
// library of its own: what a compiler makes of the loops of `measured` depends on how often their functions are called, and whole
// buffers would change it.
// The records are those of `measured` with one kind more, a whole buffer: its four bytes say how many bytes it has. They are the next
// ones of two slices, the bytes and their marks, as far as these reach.
#![tactic(auto)]

use device::{BytesTaken, take_bytes};
use measured::{
    Order, RECORD, Sums, added, called, order_of, profile_at, room_of, with_bytes, with_call,
    with_number,
};
use model::start_state;
use text::part;

fn added_taken(sums: Sums, returned: BytesTaken, out: &[u8]) -> Sums {
    let count = returned.outcome.map(|done| done.count);
    let taken = returned.outcome.map_or(0, |done| done.taken);
    let counted = with_number(with_call(sums, count), taken as u64);
    with_bytes(counted, part(out, 0, count.unwrap_or(0)))
}

// The checksum of every refusal number, count and answer, and of the bytes that a whole-buffer call took.
pub fn proved_buffers(
    profiles: &[u8],
    script: &[u8],
    bytes: &[u8],
    marks: &[u8],
    out: &mut [u8],
) -> u64 {
    let mut profile = profile_at(profiles, 0);
    let mut state = start_state();
    let mut sums = Sums::default();
    let mut at = 0u64;
    for record in script.as_chunks::<RECORD>().0 {
        let room = room_of(record, out.len());
        match order_of(record) {
            Order::Profile(n) => profile = profile_at(profiles, n),
            Order::Buffer(size) => {
                let given = part(bytes, at as usize, size as usize);
                let marked = part(marks, at as usize, size as usize);
                at = at.wrapping_add(u64::from(size));
                let returned = take_bytes(profile, state, given, marked, &mut out[..room]);
                state = returned.state;
                sums = added_taken(sums, returned, out);
            }
            order => {
                let returned = called(profile, state, order, &mut out[..room]);
                state = returned.state;
                sums = added(sums, returned.outcome, out);
            }
        }
    }
    sums.high
}
