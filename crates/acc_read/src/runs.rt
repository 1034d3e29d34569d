//! Bytes that pass a test, looked at sixteen at a time.

ghost use Rattle.std.specs.Prelude.{◌≡◌, ◌≤◌, ℕ, Bool, length};
ghost use Rattle.std.specs.List.{list_all, prefix_len};

/// How many bytes are looked at together.
const RUN: usize = 16;

/// A test of a byte.
pub trait ByteTest {
    /// Which bytes pass.
    ghost test: { ℕ → Bool };

    /// The byte passes. No branch depends on the byte, so that the compiler can test many at once.
    fn passes(byte: u8) -> bool
        ensures { result ≡ test byte };
}

/// Each byte of a run passes. All of them are looked at, whichever fails.
#[inline(always)]
fn all_in<T: ByteTest>(run: &[u8]) -> bool
    ensures { result ≡ list_all T.test run.now }
{
    let mut all = true;
    for byte in run {
        all &= T::passes(*byte);
    }
    all
}

/// Each of the bytes passes.
pub fn all_pass<T: ByteTest>(bytes: &[u8]) -> bool
    ensures { result ≡ list_all T.test bytes.now }
{
    if bytes.len() < RUN {
        return all_in::<T>(bytes);
    }
    let mut at = 0;
    while bytes.len() - at > RUN {
        if !all_in::<T>(&bytes[at..at + RUN]) {
            return false;
        }
        at += RUN;
    }
    // The last run may begin inside the one before.
    all_in::<T>(&bytes[bytes.len() - RUN..])
}

/// How many bytes at the front pass.
pub fn passing_len<T: ByteTest>(bytes: &[u8]) -> usize
    ensures count { result ≡ prefix_len T.test bytes.now }
    ensures bound { result ≤ length bytes.now }
{
    let mut at = 0;
    while bytes.len() - at >= RUN && all_in::<T>(&bytes[at..at + RUN]) {
        at += RUN;
    }
    at + front_len::<T>(&bytes[at..])
}

/// How many bytes at the front pass, looked at one after the other.
fn front_len<T: ByteTest>(bytes: &[u8]) -> usize
    ensures count { result ≡ prefix_len T.test bytes.now }
    ensures bound { result ≤ length bytes.now }
{
    bytes.iter().take_while(|b| T::passes(**b)).count()
}
