// The three functions of `measured` for callers in C and Rust: tests/benchmark and tests/cortex-m0 link them. Each promises what the
// function of that name does.
#![tactic(auto)]

#[unsafe(no_mangle)]
pub extern "C" fn proved_calls(profiles: &[u8], script: &[u8], out: &mut [u8]) -> u64 {
    measured::proved_calls(profiles, script, out)
}

#[unsafe(no_mangle)]
pub extern "C" fn proved_lines(lines: &[u8], values: &mut i64) -> u64 {
    measured::proved_lines(lines, values)
}

#[unsafe(no_mangle)]
pub extern "C" fn proved_rewritten(lines: &[u8], out: &mut [u8]) -> u64 {
    measured::proved_rewritten(lines, out)
}
