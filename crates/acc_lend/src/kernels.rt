//! What a kernel is.

ghost use Rattle.std.specs.Prelude.{◌≡◌, ◌+◌, ◌≤◌, length};
ghost use Rattle.acc_base.specs.declared.addresses.TheConstants.{MEMORY_MAX};
ghost use Rattle.acc_lend.specs.Images.{Image, KeepsLength, IsPointwise};

/// What is done on the device to the bytes of a loan (OpenACC 3.3, section 2.5, compute constructs).
///
/// Its image says what it leaves of a part of the loan, byte by byte.
pub trait Kernel {
    ghost image: { Self → Image };

    /// Changes a part of the loan. `at` is the place of the part's first byte in the loan. `src` are bytes to read, the
    /// first of them for place 0 of the loan.
    fn run(&self, at: usize, part: &mut [u8], src: &[u8])
        requires { at + length part.old ≤ MEMORY_MAX }
        ensures { part.new ≡ image self.now at part.old src.now };

    ghost keeps_length: { (kernel : Self) → KeepsLength (image kernel) };
}

/// A kernel that may be run on the parts of a loan one by one. Its image of a part that is cut in two is the images of
/// the two, joined.
pub trait Pointwise: Kernel {
    ghost joined: { (kernel : Self) → IsPointwise (Self.image kernel) };
}
