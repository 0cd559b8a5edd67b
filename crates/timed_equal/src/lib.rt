// The comparison of byte strings as a C function, for the test that times it (tests/timed). The delivered library does not have it.
#![tactic(auto)]

ghost use Rattle.std.specs.Prelude.{◌≡◌, cond};
ghost use Rattle.kinds.specs.Bytes.{same};

// 1 for equal strings, 0 for others.
#[unsafe(no_mangle)]
pub extern "C" fn timed_equal(a: &[u8], b: &[u8]) -> u32
    ensures { result ≡ cond (same a.now b.now) 1 0 }
{
    if text::equal(a, b) { 1 } else { 0 }
}
