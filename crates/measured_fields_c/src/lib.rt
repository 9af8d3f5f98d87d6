// The function of `measured_fields` for callers in C and Rust: tests/benchmark and tests/cortex-m0 link it. It promises what that one
// does.
#![tactic(auto)]

#[unsafe(no_mangle)]
pub extern "C" fn proved_fields(numbers: &[u8]) -> u64 {
    measured_fields::proved_fields(numbers)
}
