// The function of `measured_buffers` for callers in C and Rust: tests/benchmark and tests/cortex-m0 link it. It promises what that one
// does.
#![tactic(auto)]

#[unsafe(no_mangle)]
pub extern "C" fn proved_buffers(
    profiles: &[u8],
    script: &[u8],
    bytes: &[u8],
    marks: &[u8],
    out: &mut [u8],
) -> u64 {
    measured_buffers::proved_buffers(profiles, script, bytes, marks, out)
}
