//! The names of files as they are told: with a question mark for each control character.

use acc_read::Page;
use std::alloc::{AllocError, Global};

/// A letter as it is told.
pub(crate) fn told_letter(letter: char) -> char {
    if letter.is_control() { '?' } else { letter }
}

/// Puts a letter.
pub(crate) fn put_letter(page: &mut Page, letter: char) {
    page.text(letter.encode_utf8(&mut [0; 4]));
}

/// Puts a text that may be a name, or have one.
pub(crate) fn put_told(page: &mut Page, text: &str) {
    for letter in text.chars() {
        put_letter(page, told_letter(letter));
    }
}

/// A name as it is told.
///
/// # Errors
///
/// That there is no memory for it.
pub fn told_name(alloc: Global, name: &str) -> Result<String, AllocError> {
    let mut told = String::new(alloc);
    for letter in name.chars() {
        told.push(told_letter(letter))?;
    }
    Ok(told)
}
