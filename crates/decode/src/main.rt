// Reads a capture of answers on standard input, splits it after every CR LF, and prints what the host's reader makes of each piece.
#![tactic(auto)]

mod piece;
mod tell;

use piece::Piece;
use std::io;
use std::io::Read;

// A proved loop has to end, and nothing says that an input does: it counts up to a number that no run reaches.
fn decode(rt: &impl Print, input: &mut impl Read) -> io::Result<()> {
    let mut piece = Piece::new();
    let mut chunk = [0u8; 4096];
    for _ in 0..u64::MAX {
        let n = input.read(&mut chunk)?;
        if n == 0 {
            return piece.close(rt);
        }
        for byte in &chunk[..n] {
            piece.take(rt, *byte)?;
        }
    }
    Ok(())
}

fn main(rt: HostRuntime) -> io::Result<()> {
    decode(&rt, &mut rt.stdin())
}
