//! Kernels that change each byte of a loan by its place and its value.

ghost use Rattle.std.specs.Prelude.{◌≡◌, length};
ghost use Rattle.acc_lend.specs.Images.{each_byte, added, flipped, number_image, summed};
ghost use Rattle.acc_lend.specs.ImageLaws.{each_byte-append, length-each_byte};

use crate::kernels::{Kernel, Pointwise};

/// Adds a number to each byte, modulo 256. The source is not read.
#[derive(Clone, Copy, Debug)]
pub struct Add(pub u8);

/// Flips those bits of each byte that are set in a number. The source is not read.
#[derive(Clone, Copy, Debug)]
pub struct Xor(pub u8);

/// Writes to each byte a number plus the byte's place in the loan, modulo 256. The source is not read.
#[derive(Clone, Copy, Debug)]
pub struct Number(pub u8);

/// Adds to each byte the byte of the source at the same place of the loan, modulo 256. Bytes at places that the source
/// does not have stay.
#[derive(Clone, Copy, Debug)]
pub struct Plus;

impl Kernel for Add {
    ghost image = { λ kernel at part src. each_byte (added kernel.0) at part };

    fn run(&self, at: usize, part: &mut [u8], src: &[u8]) {
        let _ = at;
        let _ = src;
        let number = self.0;
        for byte in part.iter_mut() {
            *byte = byte.wrapping_add(number);
        }
    }

    ghost keeps_length = { λ kernel at part src. length-each_byte (added kernel.0) at part };
}

impl Pointwise for Add {
    ghost joined = { λ kernel at first second src. each_byte-append (added kernel.0) at first second };
}

impl Kernel for Xor {
    ghost image = { λ kernel at part src. each_byte (flipped kernel.0) at part };

    fn run(&self, at: usize, part: &mut [u8], src: &[u8]) {
        let _ = at;
        let _ = src;
        let number = self.0;
        for byte in part.iter_mut() {
            *byte ^= number;
        }
    }

    ghost keeps_length = { λ kernel at part src. length-each_byte (flipped kernel.0) at part };
}

impl Pointwise for Xor {
    ghost joined = { λ kernel at first second src. each_byte-append (flipped kernel.0) at first second };
}

impl Kernel for Number {
    ghost image = { λ kernel at part src. each_byte (number_image kernel.0) at part };

    fn run(&self, at: usize, part: &mut [u8], src: &[u8]) {
        let _ = src;
        let number = usize::from(self.0);
        for (i, byte) in part.iter_mut().enumerate() {
            *byte = ((number + (at + i)) % 256) as u8;
        }
    }

    ghost keeps_length = { λ kernel at part src. length-each_byte (number_image kernel.0) at part };
}

impl Pointwise for Number {
    ghost joined = { λ kernel at first second src. each_byte-append (number_image kernel.0) at first second };
}

impl Kernel for Plus {
    ghost image = { λ kernel at part src. each_byte (summed src) at part };

    fn run(&self, at: usize, part: &mut [u8], src: &[u8]) {
        let Some(behind) = src.get(at..) else {
            return;
        };
        let count = part.len().min(behind.len());
        add_each(&mut part[..count], &behind[..count]);
    }

    ghost keeps_length = { λ kernel at part src. length-each_byte (summed src) at part };
}

impl Pointwise for Plus {
    ghost joined = { λ kernel at first second src. each_byte-append (summed src) at first second };
}

// Adds each byte of the source to the byte of the part at the same place.
fn add_each(part: &mut [u8], src: &[u8])
    requires { length src.now ≡ length part.old }
    ensures { part.new ≡ each_byte (summed src.now) 0 part.old }
{
    for (i, byte) in part.iter_mut().enumerate() {
        *byte = byte.wrapping_add(src[i]);
    }
}
