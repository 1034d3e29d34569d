//! Where a script comes from, and where its output goes.

ghost use Rattle.std.specs.Prelude.{◌≡◌, ◌≤◌, [], false, length, Option, None, IfSome};
ghost use Rattle.acc_script.specs.Told.{Given, Taken, Took, after_read, after_write, Becomes};

pub mod memory;
pub mod streams;
pub mod whole;

/// Gives bytes.
///
/// Where a source makes it known, contracts see what it gave so far, and how often it failed, modulo 2^64. They also
/// see whether its last read into a piece that was not empty met the end.
pub trait Source {
    /// What it gave so far; `None` where contracts do not know it.
    ghost told: { Self → Option Given } = { λ _. None };

    /// Gives bytes at the front of the piece, and returns how many. No byte into a piece that is not empty means the
    /// end; `None` is a failure.
    fn read(&mut self, piece: &mut [u8]) -> Option<usize>
        ensures bound { IfSome result (λ n. n ≤ length piece.old) }
        ensures tells { Becomes (told self.old) (told self.new) (λ g. after_read g result piece.new) };
}

/// Takes bytes.
///
/// Where a sink makes it known, contracts see what it took so far, and how often it failed, modulo 2^64.
pub trait Sink {
    /// What it took so far; `None` where contracts do not know it.
    ghost told: { Self → Option Taken } = { λ _. None };

    /// Takes bytes from the front of the piece, and returns how many. `None` is a failure, and so is no byte of a piece
    /// that is not empty.
    fn write(&mut self, piece: &[u8]) -> Option<usize>
        ensures bound { IfSome result (λ n. n ≤ length piece.now) }
        ensures tells { Becomes (told self.old) (told self.new) (λ t. after_write t result piece.now) };

    /// Whether it takes reports. All other text is written to it, whatever it takes. A sink whose bytes contracts know
    /// takes them.
    fn takes_reports(&self) -> bool
        ensures { result ≡ false → told self.now ≡ None }
    {
        true
    }

    /// Flushes what it kept back, if it keeps anything back; returns whether that succeeded. This is no write: what it
    /// took stays, and so does the number of failures.
    #[tactic(auto, using(crate::proofs::Fronts::took_nothing))]
    fn flush(&mut self) -> bool
        ensures { Took (told self.old) (told self.new) [] }
    {
        true
    }
}
