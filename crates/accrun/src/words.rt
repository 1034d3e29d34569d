//! The words of the command line.

use acc_base::Fault;
use acc_command::FAULTED;
use acc_script::{Sink, write_all};
use acc_terminal::tell;
use std::env::{self, Env};
use std::io::{self, ErrorKind};

/// What is written where a word of the command line is not UTF-8.
const NOT_TEXT: &str = "error: a word of the command line is not UTF-8

For more information, try '--help'.
";

/// Returns the words of the command line; the first is the program's name.
///
/// # Errors
///
/// [`ErrorKind::OutOfMemory`]; another kind where a word is not UTF-8.
pub fn read_words<R: Env + AllocGlobal>(rt: &R) -> io::Result<Vec<String>> {
    Ok(env::args(rt)?.collect(rt.alloc())?)
}

/// Writes on `err` why there are no words of the command line, and returns the status.
pub fn tell_words<E: Sink>(err: &mut E, kind: ErrorKind) -> u8 {
    match kind {
        ErrorKind::OutOfMemory => tell(err, Fault::Memory),
        _ => {
            let _ = write_all(err, NOT_TEXT.as_bytes());
        }
    }
    FAULTED
}
