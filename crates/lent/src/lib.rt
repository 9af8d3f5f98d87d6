// A lent buffer filled so that what a call writes to it is seen.
// The programs above use the promises of the functions named here.
#![tactic(auto)]

ghost use Rattle.std.specs.Prelude.{◌≡◌, length};
ghost use Rattle.lent.specs.Patterns.{cell_at, pattern, is_spilt};

// The byte of place `i`. Another seed gives another byte.
fn cell(seed: u8, i: usize) -> u8
    ensures { result ≡ cell_at seed i }
{
    seed.wrapping_add((i % 256) as u8)
}

pub fn fill(out: &mut [u8], seed: u8)
    ensures { out.new ≡ pattern seed (length out.old) }
{
    for (i, byte) in out.iter_mut().enumerate() {
        *byte = cell(seed, i);
    }
}

// Whether a byte from place `from` on is not as it was filled. Every byte is looked at, so that several are compared at once.
pub fn is_spilt(out: &[u8], seed: u8, from: usize) -> bool
    ensures { result ≡ is_spilt seed from out.now }
{
    let mut due = cell(seed, from);
    let mut spilt = false;
    for byte in &out[from.min(out.len())..] {
        spilt |= *byte != due;
        due = due.wrapping_add(1);
    }
    spilt
}
