//! Bytes cut in two.

ghost use Rattle.std.specs.Prelude.{◌≡◌, ◌≤◌, ◌++◌, length, take, drop};
ghost use Rattle.std.specs.Borrow.{sem, LendsBoth, LendsBothIf, Array, u8 as byte};
ghost use Rattle.acc_lend.specs.Slices.{IsCut};

/// The first `at` bytes and the rest, both to write at the same time. Nothing is copied.
pub fn split(bytes: &mut [u8], at: usize) -> (&mut [u8], &mut [u8])
    requires { at ≤ length bytes.old }
    ensures first { result.0.now ≡ take at bytes.old }
    ensures second { result.1.now ≡ drop at bytes.old }
    ensures* writes_back { sem 𝓛 (LendsBoth (Array byte 0) (Array byte 0) (Array byte 0) bytes.entry result ◌++◌) }
{
    bytes.split_at_mut(at)
}

/// As [`split`], but `None` where `at` is 0.
pub(crate) fn cut(bytes: &mut [u8], at: usize) -> Option<(&mut [u8], &mut [u8])>
    requires { at ≤ length bytes.old }
    ensures cut { IsCut at bytes.old result }
    ensures* writes_back { sem 𝓛 (LendsBothIf (Array byte 0) (Array byte 0) (Array byte 0) bytes.entry result ◌++◌ bytes.old) }
{
    if at == 0 {
        return None;
    }
    Some(bytes.split_at_mut(at))
}
