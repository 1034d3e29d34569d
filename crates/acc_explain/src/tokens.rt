//! The tokens of a statement, by their places in it.

use acc_read::{is_blank, is_word_byte};

/// Where a token stands in a text: from its first byte up to the one behind its last.
#[derive(Clone, Copy)]
pub struct Token {
    /// The place of its first byte.
    pub start: usize,
    /// The place behind its last byte.
    pub end: usize,
}

/// The first token of a text from a place on; an empty one at that place where there is none. A character that is no
/// token counts as one.
pub fn next_token(text: &[u8], from: usize) -> Token {
    for start in from..text.len() {
        if !is_blank(byte_at(text, start)) {
            let end = word_end(text, start.saturating_add(1));
            return Token { start, end };
        }
    }
    Token {
        start: from,
        end: from,
    }
}

/// The end of the token that ends behind a place: that place, unless it stands inside a word.
fn word_end(text: &[u8], from: usize) -> usize {
    if !is_word_byte(byte_at(text, from.saturating_sub(1))) {
        return from;
    }
    for end in from..text.len() {
        if !is_word_byte(byte_at(text, end)) {
            return end;
        }
    }
    text.len()
}

/// The byte at a place; a zero where there is none.
fn byte_at(text: &[u8], place: usize) -> u8 {
    match text.get(place) {
        Some(byte) => *byte,
        None => 0,
    }
}

/// The token of a number, from 0 on; an empty one behind the last where there are fewer.
pub fn nth_token(text: &[u8], nth: usize) -> Token {
    let mut token = next_token(text, 0);
    for _ in 0..nth {
        token = next_token(text, token.end);
    }
    token
}

/// The bytes of a token of the text; none where it is not of this text.
pub fn bytes_of(text: &[u8], token: Token) -> &[u8] {
    text.get(token.start..token.end).unwrap_or(&[])
}

/// The bytes of the token of a number, from 0 on; none where there are fewer.
pub fn nth_bytes(text: &[u8], nth: usize) -> &[u8] {
    bytes_of(text, nth_token(text, nth))
}

/// The text up to the end of the token of a number, from 1 on; none of it for 0.
pub fn front_of(text: &[u8], count: usize) -> &[u8] {
    let end = match count.checked_sub(1) {
        Some(nth) => nth_token(text, nth).end,
        None => 0,
    };
    text.get(..end).unwrap_or(&[])
}

/// Whether a byte is a mark, which is a token alone.
pub fn is_mark(b: u8) -> bool {
    matches!(b, b'(' | b')' | b'[' | b']' | b':' | b',')
}
