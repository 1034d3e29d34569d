//! The languages of programs.

/// The language of a program.
#[derive(Clone, Copy, PartialEq, Eq)]
pub enum Language {
    /// C.
    C,
    /// Fortran, of which a preprocessor reads the lines that begin with `#`.
    Fortran,
}

impl Language {
    /// Returns how the names of the files of its programs end.
    pub fn suffix(self) -> &'static str {
        self.pick(".c", ".F90")
    }

    /// Returns how a line of each of its programs begins, which no other file has.
    pub fn mark(self) -> &'static str {
        self.pick(
            "/* Written from a script by accrun --emit c. ",
            "! Written from a script by accrun --emit fortran. ",
        )
    }

    /// Returns the one of two texts that is for it.
    pub fn pick(self, c: &'static str, fortran: &'static str) -> &'static str {
        match self {
            Language::C => c,
            Language::Fortran => fortran,
        }
    }

    /// Returns the end of so many places from 0 on, as it names that: their number, or the last of them.
    pub(crate) fn end_of(self, count: u64) -> u64 {
        match self {
            Language::C => count,
            Language::Fortran => count.saturating_sub(1),
        }
    }
}
