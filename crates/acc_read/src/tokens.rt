//! Words, marks, numbers and names at the front of a text.

ghost use Rattle.std.specs.Prelude.{◌≡◌, ◌≤◌, ◌<◌, ◌+◌, ◌==◌, not, min, take, length, IfOk};
ghost use Rattle.std.specs.List.{prefix_len};
ghost use Rattle.std.specs.Char.{is_ascii_digit};
ghost use Rattle.std.specs.Str.{bytes_eq};
ghost use Rattle.acc_read.specs.Reading.{Reads};
ghost use Rattle.acc_read.specs.Tokens.{is_blank, is_word_byte, word_len, skip_blanks, is_at_end, word_at, keyword_at, is_word_next, is_mark_next, mark_at, skip_comma, is_word_before, number_at, is_name_byte, begins_lower, value_of, name_at};

use acc_base::ScriptFault;

/// How many bytes a name may have.
pub const NAME_MAX: usize = 32;

/// The byte is a space or a tab.
pub fn is_blank(b: u8) -> bool
    ensures { result ≡ is_blank b }
{
    b == b' ' || b == b'\t'
}

// Each byte of a word stands at its own place, and a comma at every other place.
static WORD_BYTES: [u8; 256] = *b"\
    ,,,,,,,,,,,,,,,,,,,,,,,,,,,,,,,,\
    ,,,,,,,,,,,,,,,,0123456789,,,,,,\
    ,ABCDEFGHIJKLMNOPQRSTUVWXYZ,,,,_\
    ,abcdefghijklmnopqrstuvwxyz,,,,,\
    ,,,,,,,,,,,,,,,,,,,,,,,,,,,,,,,,\
    ,,,,,,,,,,,,,,,,,,,,,,,,,,,,,,,,\
    ,,,,,,,,,,,,,,,,,,,,,,,,,,,,,,,,\
    ,,,,,,,,,,,,,,,,,,,,,,,,,,,,,,,,";

/// The byte may stand in a word: a letter, a digit or `_`.
pub fn is_word_byte(b: u8) -> bool
    ensures { result ≡ is_word_byte b }
{
    WORD_BYTES[b as usize] != b','
}

/// How many blanks stand at the front.
#[inline(never)]
fn blanks_len(text: &[u8]) -> usize
    ensures count { result ≡ prefix_len is_blank text.now }
    ensures bound { result ≤ length text.now }
{
    text.iter().take_while(|b| is_blank(**b)).count()
}

/// How many bytes at the front are of one word.
fn word_len(text: &[u8]) -> usize
    ensures count { result ≡ word_len text.now }
    ensures bound { result ≤ length text.now }
{
    text.iter().take_while(|b| is_word_byte(**b)).count()
}

/// The text from its first token on. A token mostly stands first, or behind one blank.
#[inline(always)]
pub fn skip_blanks(text: &[u8]) -> &[u8]
    ensures { result.now ≡ skip_blanks text.now }
{
    match text {
        [] => text,
        [first, ..] if *first > b' ' => text,
        [b' ', second, ..] if *second > b' ' => &text[1..],
        _ => {
            let (_, rest) = text.split_at(blanks_len(text));
            rest
        }
    }
}

/// The text holds no other token.
pub fn is_at_end(text: &[u8]) -> bool
    ensures { result ≡ is_at_end text.now }
{
    skip_blanks(text).is_empty()
}

/// The two have the same bytes. Where one has a constant length, the compiler makes that many tests and no call.
#[inline(always)]
#[tactic(auto, using(crate::proofs::SameTexts::text_laws))]
pub fn are_same(one: &[u8], other: &[u8]) -> bool
    ensures { result ≡ bytes_eq one.now other.now }
{
    if one.len() != other.len() {
        return false;
    }
    'bytes: for i in 0..other.len() {
        if one[i] != other[i] {
            return false;
        }
    }
    true
}

/// The word is this text.
#[inline(always)]
pub fn is_text(word: &[u8], text: &str) -> bool
    ensures { result ≡ bytes_eq word.now text.now }
{
    are_same(word, text.as_bytes())
}

/// The next word, which has letters, digits and `_`, and the text after it.
#[tactic(auto, unfolding(crate::specs::Tokens::word_at))]
pub fn word_at(text: &[u8]) -> Result<(&[u8], &[u8]), ScriptFault>
    ensures { Reads (λ x. (x.0.now, x.1.now)) result (word_at text.now) }
{
    let token = skip_blanks(text);
    let len = word_len(token);
    if len == 0 {
        return Err(ScriptFault::Syntax);
    }
    Ok(token.split_at(len))
}

/// A byte of a word stands first.
pub fn begins_word(text: &[u8]) -> bool
    ensures { result ≡ not (word_len text.now == 0) }
{
    match text {
        [] => false,
        [first, ..] => is_word_byte(*first),
    }
}

/// The text after this keyword, which has to stand next.
#[inline(always)]
#[tactic(auto, unfolding(crate::specs::Tokens::keyword_at))]
pub fn keyword_at<'a>(keyword: &str, text: &'a [u8]) -> Result<&'a [u8], ScriptFault>
    ensures { Reads (λ rest. rest.now) result (keyword_at keyword.now text.now) }
{
    let (word, rest) = word_at(text)?;
    if !is_text(word, keyword) {
        return Err(ScriptFault::Syntax);
    }
    Ok(rest)
}

/// The next token is this word.
#[inline(always)]
pub fn is_word_next(word: &str, text: &[u8]) -> bool
    ensures { result ≡ is_word_next word.now text.now }
{
    let token = skip_blanks(text);
    let (next, _) = token.split_at(word_len(token));
    is_text(next, word)
}

/// The next token is this mark.
pub fn is_mark_next(mark: u8, text: &[u8]) -> bool
    ensures { result ≡ is_mark_next mark text.now }
{
    match skip_blanks(text) {
        [] => false,
        [first, ..] => *first == mark,
    }
}

/// The text after this mark, which has to stand next.
#[tactic(auto, unfolding(crate::specs::Tokens::mark_at))]
#[inline(always)]
pub fn mark_at(mark: u8, text: &[u8]) -> Result<&[u8], ScriptFault>
    ensures { Reads (λ rest. rest.now) result (mark_at mark text.now) }
{
    match skip_blanks(text) {
        [first, rest @ ..] if *first == mark => Ok(rest),
        _ => Err(ScriptFault::Syntax),
    }
}

/// The text without a comma at its front.
pub fn skip_comma(text: &[u8]) -> &[u8]
    ensures { result.now ≡ skip_comma text.now }
{
    match skip_blanks(text) {
        [b',', rest @ ..] => rest,
        _ => text,
    }
}

/// The next token is a word and this mark follows it, or it is this mark.
pub fn is_word_before(mark: u8, text: &[u8]) -> bool
    ensures { result ≡ is_word_before mark text.now }
{
    let token = skip_blanks(text);
    let (_, rest) = token.split_at(word_len(token));
    is_mark_next(mark, rest)
}

/// How many digits stand at the front, and the number that they say, or `limit + 1` where it is more.
fn digits_at(limit: u32, text: &[u8]) -> (u64, usize)
    ensures value { result.0 ≡ min (value_of (take result.1 text.now)) (limit + 1) }
    ensures count { result.1 ≡ prefix_len is_ascii_digit text.now }
    ensures bound { result.1 ≤ length text.now }
{
    let mut value = 0u64;
    let mut len = 0;
    while len < text.len() && text[len].is_ascii_digit() {
        value = (value * 10 + u64::from(text[len] - b'0')).min(u64::from(limit) + 1);
        len += 1;
    }
    (value, len)
}

/// The next word, which is a number up to a limit, and the text after it.
#[inline(always)]
#[tactic(auto, using(crate::proofs::Numbers::number_laws))]
pub fn number_at(limit: u32, text: &[u8]) -> Result<(u32, &[u8]), ScriptFault>
    ensures read { Reads (λ x. (x.0, x.1.now)) result (number_at limit text.now) }
    ensures bound { IfOk result (λ x. x.0 ≤ limit) }
{
    let token = skip_blanks(text);
    let (value, len) = digits_at(limit, token);
    let (_, rest) = token.split_at(len);
    if len == 0 || begins_word(rest) {
        return Err(ScriptFault::Syntax);
    }
    if value > u64::from(limit) {
        return Err(ScriptFault::Number);
    }
    Ok((value as u32, rest))
}

fn is_name_byte(b: u8) -> bool
    ensures { result ≡ is_name_byte b }
{
    b.is_ascii_lowercase() || b.is_ascii_digit() || b == b'_'
}

/// How many bytes at the front are of one name.
fn name_len(text: &[u8]) -> usize
    ensures count { result ≡ prefix_len is_name_byte text.now }
    ensures bound { result ≤ length text.now }
{
    text.iter().take_while(|b| is_name_byte(**b)).count()
}

fn begins_lower(name: &[u8]) -> bool
    ensures { result ≡ begins_lower name.now }
{
    match name {
        [] => false,
        [first, ..] => first.is_ascii_lowercase(),
    }
}

/// The next word, which may name an array, and the text after it.
#[inline(always)]
#[tactic(auto, using(crate::proofs::NameWords::name_laws))]
pub fn name_at(text: &[u8]) -> Result<(&[u8], &[u8]), ScriptFault>
    ensures { Reads (λ x. (x.0.now, x.1.now)) result (name_at text.now) }
{
    let token = skip_blanks(text);
    let len = name_len(token);
    let (name, rest) = token.split_at(len);
    if begins_word(rest) || len > NAME_MAX || !begins_lower(name) {
        return Err(ScriptFault::Syntax);
    }
    Ok((name, rest))
}
