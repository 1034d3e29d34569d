//! What stands in the texts of a program for `%`.

use acc_base::Section;

/// A piece of a text of a program. A section or a place in one has to lie in one array.
#[derive(Clone, Copy)]
pub enum Piece<'a> {
    /// A text.
    Text(&'a str),
    /// Bytes as they are.
    Bytes(&'a [u8]),
    /// Bytes within quotes.
    Literal(&'a [u8]),
    /// Two hexadecimal digits of a byte.
    Digits(u8),
    /// A number.
    Number(u64),
    /// The end of so many places from 0 on: in C the number of them, and in Fortran the last of them.
    End(u64),
    /// A section as a subarray, `a_[0:16]` or `a_(0:15)`, or as the whole array, `a_`.
    Part(Section),
    /// A section as an argument without a length: in C the address of its first byte, `a_ + 8`, and in Fortran its part.
    Start(Section),
    /// A section as an argument with its length: in C as two arguments, `a_ + 8, 4`, and in Fortran its part.
    Argument(Section),
    /// The byte at a host address, as what an address is taken of: in C that address, and in Fortran the element.
    Byte(u64),
    /// The byte at the place `i` of a section, `a_[i + 8]` or `a_(i + 8)`.
    Cell(Section),
}
