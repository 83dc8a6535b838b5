//! From bytes to tokens.

ghost use Rattle.std.specs.Prelude.{◌≡◌, ◌≤◌, ◌<◌, ℕ, Some, None, IsTrue, IsUtf8, IsAscii, IfOk, codes, length, take, drop, true, false, slice_index};
ghost use Rattle.std.specs.List.{prefix_len, list_all};
ghost use Rattle.std.specs.Char.{is_ascii_digit};
ghost use Rattle.std.specs.Str.{all_ascii_digits};
ghost use Rattle.column_types.specs.Name.{begins_name, continues_name, is_name};
ghost use Rattle.filter.specs.Text.{is_blank, is_word, form_of, word_token, word_at, positive_of, negative_of, integer_at, quoted_at, sign_at, escaped, string_body, string_at, token_at};
ghost use Rattle.filter.specs.Reading.{FindsToken, FindsInteger, FindsBody, IsQuote, is_plain};

use crate::token::{Form, Token};
use column_types::Op;
use outside::{Memory, Text};
use std::alloc::{AllocError, AllocFailed, Global};

/// A token, and how many bytes it takes.
#[derive(Drop)]
pub struct Found {
    pub token: Token,
    pub len: usize,
}

/// What a string holds, and how many bytes it takes behind its opening quote.
#[derive(Drop)]
pub struct Body {
    text: Vec<u8>,
    len: usize,
}

/// Why no token is given.
#[derive(Drop)]
pub enum TokenFault {
    /// Want of memory.
    Memory,
    /// No token stands there.
    NoToken,
}

impl From<Memory> for TokenFault {
    ghost use Rattle.std.specs.Prelude.{◌≡◌};
    ghost use Rattle.filter.specs.declared.lexer.TokenFault.TheVariants.{Memory};

    ghost from_gives = { λ _ e. e ≡ Memory };

    fn from(_want: Memory) -> TokenFault {
        TokenFault::Memory
    }
}

impl From<AllocError> for TokenFault {
    ghost use Rattle.std.specs.Prelude.{◌≡◌};
    ghost use Rattle.filter.specs.declared.lexer.TokenFault.TheVariants.{Memory};

    ghost from_gives = { λ _ e. e ≡ Memory };

    fn from(_refused: AllocError) -> TokenFault {
        TokenFault::Memory
    }
}

impl<T: Drop> From<AllocFailed<T>> for TokenFault {
    ghost use Rattle.std.specs.Prelude.{◌≡◌};
    ghost use Rattle.filter.specs.declared.lexer.TokenFault.TheVariants.{Memory};

    ghost from_gives = { λ _ e. e ≡ Memory };

    fn from(_refused: AllocFailed<T>) -> TokenFault {
        TokenFault::Memory
    }
}

/// A blank, a tab, a line feed or a carriage return.
fn is_blank(byte: u8) -> bool
    ensures { result ≡ is_blank byte }
{
    byte == b' ' || byte == b'\t' || byte == b'\n' || byte == b'\r'
}

/// A letter or `_`.
fn begins_name(byte: u8) -> bool
    ensures { result ≡ begins_name byte }
{
    byte.is_ascii_alphabetic() || byte == b'_'
}

/// A letter, a digit or `_`.
fn continues_name(byte: u8) -> bool
    ensures { result ≡ continues_name byte }
{
    byte.is_ascii_alphanumeric() || byte == b'_'
}

/// The number of blanks at the front.
pub fn blank_len(bytes: &[u8]) -> usize
    ensures value { result ≡ prefix_len is_blank bytes.now }
    ensures within { result ≤ length bytes.now }
{
    bytes.iter().take_while(|b| is_blank(**b)).count()
}

/// The number of letters, digits and `_` at the front.
fn name_len(bytes: &[u8]) -> usize
    ensures value { result ≡ prefix_len continues_name bytes.now }
    ensures within { result ≤ length bytes.now }
{
    bytes.iter().take_while(|b| continues_name(**b)).count()
}

/// The number of digits at the front.
pub fn digit_len(bytes: &[u8]) -> usize
    ensures value { result ≡ prefix_len is_ascii_digit bytes.now }
    ensures within { result ≤ length bytes.now }
{
    bytes.iter().take_while(|b| b.is_ascii_digit()).count()
}

/// Whether a word is this keyword, in any ASCII case.
fn is_word(keyword: &str, word: &str) -> bool
    ensures { result ≡ is_word keyword.now word.now }
{
    word.eq_ignore_ascii_case(keyword)
}

fn form_of(word: &str) -> Form
    ensures { result ≡ form_of word.now }
{
    if is_word("DATE", word) {
        Form::Date
    } else if is_word("TIMESTAMP", word) {
        Form::Timestamp
    } else {
        Form::Plain
    }
}

/// The token of a bare word.
#[tactic(auto, unfolding(crate::specs::Text::word_token))]
fn word_token(alloc: Global, word: &str) -> Result<Token, Memory>
    ensures { IfOk result (λ token. token ≡ word_token word.now) }
{
    let token = if is_word("AND", word) {
        Token::And
    } else if is_word("OR", word) {
        Token::Or
    } else if is_word("NOT", word) {
        Token::Not
    } else if is_word("IN", word) {
        Token::In
    } else if is_word("IS", word) {
        Token::Is
    } else if is_word("NULL", word) {
        Token::Null
    } else if is_word("TRUE", word) {
        Token::True
    } else if is_word("FALSE", word) {
        Token::False
    } else {
        Token::Name {
            name: Text::of(alloc, word)?,
            form: form_of(word),
        }
    };
    Ok(token)
}

/// Bytes of ASCII as text.
pub fn ascii_text(bytes: &[u8]) -> &str
    requires { IsAscii bytes.now }
    ensures { result.now ≡ bytes.now }
{
    match str::from_utf8(bytes) {
        Ok(text) => text,
        Err(_) => unreachable!(),
    }
}

/// The word at the front.
#[tactic(auto, unfolding(crate::specs::Text::word_at))]
fn word_at(alloc: Global, bytes: &[u8]) -> Result<Found, TokenFault>
    ensures { FindsToken (word_at bytes.now) result }
{
    let len = name_len(bytes);
    let word = ascii_text(&bytes[..len]);
    let token = word_token(alloc, word)?;
    Ok(Found { token, len })
}

/// The number that digits spell, where it is one of 64 bits.
fn positive_of(digits: &[u8]) -> Option<i64>
    requires { all_ascii_digits digits.now ≡ true }
    ensures { result ≡ positive_of digits.now }
{
    ascii_text(digits).parse::<i64>().ok()
}

/// The number that `-` and digits spell, where it is one of 64 bits.
fn negative_of(text: &[u8]) -> Option<i64>
    requires sign { slice_index text.now 0 ≡ 45 }
    requires digits { all_ascii_digits (drop 1 text.now) ≡ true }
    ensures { result ≡ negative_of (drop 1 text.now) }
{
    ascii_text(text).parse::<i64>().ok()
}

/// The integer at the front.
#[tactic(auto, unfolding(crate::specs::Text::integer_at))]
fn integer_at(bytes: &[u8]) -> Option<Found>
    ensures { FindsInteger (integer_at bytes.now) result }
{
    if let [b'-', ..] = bytes {
        let len = 1 + digit_len(&bytes[1..]);
        let n = negative_of(&bytes[..len])?;
        return Some(Found {
            token: Token::Integer(n),
            len,
        });
    }
    let len = digit_len(bytes);
    let n = positive_of(&bytes[..len])?;
    Some(Found {
        token: Token::Integer(n),
        len,
    })
}

/// The name in backquotes at the front.
#[tactic(auto, unfolding(crate::specs::Text::quoted_at))]
fn quoted_at(alloc: Global, bytes: &[u8]) -> Result<Found, TokenFault>
    requires { 0 < length bytes.now }
    ensures { FindsToken (quoted_at bytes.now) result }
{
    let len = name_len(&bytes[1..]);
    let name = ascii_text(&bytes[1..1 + len]);
    if !is_name(name.as_bytes()) || bytes.get(1 + len) != Some(&b'`') {
        return Err(TokenFault::NoToken);
    }
    let name = Text::of(alloc, name)?;
    Ok(Found {
        token: Token::Name {
            name,
            form: Form::Quoted,
        },
        len: 2 + len,
    })
}

/// Whether bytes are a name.
fn is_name(bytes: &[u8]) -> bool
    ensures { result ≡ is_name bytes.now }
{
    match bytes {
        [] => false,
        [first, more @ ..] => begins_name(*first) && continue_name(more),
    }
}

fn continue_name(bytes: &[u8]) -> bool
    ensures { result ≡ list_all continues_name bytes.now }
{
    bytes
        .iter()
        .all(|b| b.is_ascii_alphanumeric() || *b == b'_')
}

/// The sign at the front, of two bytes where it can be.
#[tactic(auto, unfolding(crate::specs::Text::sign_at))]
fn sign_at(bytes: &[u8]) -> Option<Found>
    ensures { FindsInteger (sign_at bytes.now) result }
{
    let (token, len) = match bytes {
        [b'(', ..] => (Token::Open, 1),
        [b')', ..] => (Token::Close, 1),
        [b',', ..] => (Token::Comma, 1),
        [b'=', ..] => (Token::Compare(Op::Eq), 1),
        [b'!', b'=', ..] => (Token::Compare(Op::Ne), 2),
        [b'<', b'=', ..] => (Token::Compare(Op::Le), 2),
        [b'<', b'>', ..] => (Token::Compare(Op::Ne), 2),
        [b'<', ..] => (Token::Compare(Op::Lt), 1),
        [b'>', b'=', ..] => (Token::Compare(Op::Ge), 2),
        [b'>', ..] => (Token::Compare(Op::Gt), 1),
        _ => return None,
    };
    Some(Found { token, len })
}

/// What stands for a backslash and this byte.
fn escaped(byte: u8) -> Option<u8>
    ensures { result ≡ escaped byte }
{
    match byte {
        b'\\' | b'\'' | b'"' => Some(byte),
        b'n' => Some(b'\n'),
        b't' => Some(b'\t'),
        _ => None,
    }
}

/// The number of bytes at the front that are neither this quote nor a backslash.
fn plain_len(quote: u8, bytes: &[u8]) -> usize
    ensures value { result ≡ prefix_len (is_plain quote) bytes.now }
    ensures within { result ≤ length bytes.now }
{
    bytes
        .iter()
        .take_while(|b| **b != quote && **b != b'\\')
        .count()
}

/// What a string holds behind its opening quote, and how many bytes it takes with its closing one.
fn string_body(alloc: Global, quote: u8, bytes: &[u8]) -> Result<Body, TokenFault>
    requires utf8 { IsUtf8 bytes.now }
    requires quote { IsQuote quote }
    ensures found { FindsBody (string_body false quote bytes.now) result }
    ensures utf8 { IfOk result (λ body. IsUtf8 body.text.items) }
    ensures within { IfOk result (λ body. body.len ≤ length bytes.now) }
{
    let mut text = Vec::new(alloc);
    let mut at = 0;
    'parts: loop {
        let plain = plain_len(quote, &bytes[at..]);
        text.extend_from_slice(&bytes[at..at + plain])?;
        at += plain;
        if at == bytes.len() {
            return Err(TokenFault::NoToken);
        }
        if bytes[at] == quote {
            return Ok(Body { text, len: at + 1 });
        }
        // What is neither plain nor the quote is a backslash.
        if at + 1 == bytes.len() {
            return Err(TokenFault::NoToken);
        }
        let Some(byte) = escaped(bytes[at + 1]) else {
            return Err(TokenFault::NoToken);
        };
        text.push(byte)?;
        at += 2;
    }
}

/// The string at the front, whose opening quote is there.
#[tactic(auto, unfolding(crate::specs::Text::string_at))]
fn string_at(alloc: Global, bytes: &[u8]) -> Result<Found, TokenFault>
    requires some { 0 < length bytes.now }
    requires utf8 { IsUtf8 (drop 1 bytes.now) }
    requires quote { IsQuote (slice_index bytes.now 0) }
    ensures { FindsToken (string_at bytes.now) result }
{
    let Body { text, len } = string_body(alloc, bytes[0], &bytes[1..])?;
    let Ok(text) = String::from_utf8(text) else {
        unreachable!()
    };
    Ok(Found {
        token: Token::Str(Text::from_string(text)),
        len: 1 + len,
    })
}

/// The token at the front. What follows a first byte of ASCII is UTF-8.
pub fn token_at(alloc: Global, bytes: &[u8]) -> Result<Found, TokenFault>
    requires some { 0 < length bytes.now }
    requires utf8 { slice_index bytes.now 0 < 128 → IsUtf8 (drop 1 bytes.now) }
    ensures found { FindsToken (token_at bytes.now) result }
    ensures len { IfOk result (λ found. (0 < found.len) × (found.len ≤ length bytes.now)) }
{
    any_token_at(alloc, bytes)
}

#[tactic(auto, unfolding(crate::specs::Text::token_at))]
fn any_token_at(alloc: Global, bytes: &[u8]) -> Result<Found, TokenFault>
    requires some { 0 < length bytes.now }
    requires utf8 { slice_index bytes.now 0 < 128 → IsUtf8 (drop 1 bytes.now) }
    ensures { FindsToken (token_at bytes.now) result }
{
    let first = bytes[0];
    if begins_name(first) {
        word_at(alloc, bytes)
    } else if first.is_ascii_digit() || first == b'-' {
        integer_at(bytes).ok_or(TokenFault::NoToken)
    } else if first == b'"' || first == b'\'' {
        string_at(alloc, bytes)
    } else if first == b'`' {
        quoted_at(alloc, bytes)
    } else {
        sign_at(bytes).ok_or(TokenFault::NoToken)
    }
}
