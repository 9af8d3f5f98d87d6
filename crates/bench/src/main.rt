// The bench program: a module with profile A, driven by lines on standard input. `s LOAD` and `u LOAD` are a stable and an unstable
// sample, `> COMMAND` is a command line, to which CR LF is added; every other line prints `?`. A line ends at LF alone.
#![tactic(auto)]

mod entry;
mod session;

use session::on;
use std::io;
use std::io::Read;

// A proved loop has to end, and nothing says that an input does: it counts up to a number that no run reaches.
fn bench(rt: &impl Print, input: &mut impl Read) -> io::Result<()> {
    let mut session = on(rt)?;
    let mut chunk = [0u8; 4096];
    for _ in 0..u64::MAX {
        let n = input.read(&mut chunk)?;
        if n == 0 {
            return session.close(rt);
        }
        for byte in &chunk[..n] {
            session.take(rt, *byte)?;
        }
    }
    Ok(())
}

fn main(rt: HostRuntime) -> io::Result<()> {
    bench(&rt, &mut rt.stdin())
}
