//! The tokens of replies, as servers may write them (RFC 9051, sections 4 and 9).

ghost use Rattle.std.specs.Prelude.{◌≡◌, ◌==◌, ◌&&◌, ◌+◌, ◌-◌, ◌*◌, ◌++◌, ◌∷◌, ◌<◌, ◌≤◌, List, ℕ, true, false, length, take, min, not, IfOk, IfSome};
ghost use Rattle.std.specs.Char.{is_ascii_digit};
ghost use Rattle.std.specs.List.{list_all, position_from};
ghost use Rattle.wire_strings.specs.Quotes.{unescaped};
ghost use Rattle.wire_tokens.specs.Numbers.{greatest};
ghost use Rattle.link_face.specs.Heads.{is_number};
ghost use Rattle.link_face.specs.Rows.{BeginsToken, BeginsValue, Opens, TokenText, after_plus, ends_value, ends_word, is_between_quotes, number_in};

use crate::head::{is_digit, is_number};
use memchr::memchr;
use std::alloc::{AllocError, Global};

/// A token of a reply; its bytes are lent.
#[derive(Clone, Copy)]
pub(crate) enum Token<'a> {
    /// `(`
    Open,
    /// `)`
    Close,
    /// A space.
    Space,
    /// An atom, also with `]`, a flag or a number: bytes up to a space, a bracket, a quote or a control.
    Word(&'a [u8]),
    /// What stands between quotes, with its backslashes.
    Quoted(&'a [u8]),
    /// The octets of a literal.
    Literal(&'a [u8]),
}

impl Token<'_> {
    /// Whether it follows a value, if no bracket is open.
    fn ends_value(self) -> bool
        ensures { (text rest : List ℕ) → result ≡ true → TokenText self.entry text → ends_value (text ++ rest) ≡ true }
    {
        matches!(self, Token::Close | Token::Space)
    }

    /// The bytes for which an atom or a string stands, and none for the other tokens.
    ///
    /// `AllocError`: memory ran out.
    pub(crate) fn value(self, alloc: Global) -> Result<Vec<u8>, AllocError> {
        match self {
            Token::Open | Token::Close | Token::Space => Ok(Vec::new(alloc)),
            Token::Word(bytes) | Token::Literal(bytes) => Vec::from_slice(alloc, bytes),
            Token::Quoted(raw) => unescaped(alloc, raw),
        }
    }
}

/// Reads the token at the front; gives it and the bytes after it. None: none stands there, or it does not end.
#[tactic(auto, using(crate::proofs::TokenLemmas::open_token, crate::proofs::TokenLemmas::close_token, crate::proofs::TokenLemmas::space_token))]
pub(crate) fn read_token(bytes: &[u8]) -> Option<(Token<'_>, &[u8])>
    ensures { IfSome result (λ parts. BeginsToken bytes.now parts.0 parts.1.now) }
{
    match bytes {
        [b'(', rest @ ..] => Some((Token::Open, rest)),
        [b')', rest @ ..] => Some((Token::Close, rest)),
        [b' ', rest @ ..] => Some((Token::Space, rest)),
        [b'"', rest @ ..] => read_quoted(rest),
        [b'{', rest @ ..] => read_literal(rest),
        _ => match bytes.strip_prefix(b"~{") {
            Some(rest) => read_literal(rest),
            None => read_word(bytes),
        },
    }
}

/// Reads the value at the front, which may be a list of others; gives it and the bytes after it. None: it does not end.
#[tactic(auto, using(crate::proofs::TokenLemmas::value_begins, crate::proofs::TokenLemmas::value_goes_on, crate::proofs::TokenLemmas::value_ends))]
pub(crate) fn read_value(bytes: &[u8]) -> Option<(&[u8], &[u8])>
    ensures { IfSome result (λ parts. BeginsValue bytes.now parts.0.now parts.1.now) }
{
    let mut depth = 0;
    let mut rest = bytes;
    for _ in 0..bytes.len() {
        let (token, following) = read_token(rest)?;
        if depth == 0 && token.ends_value() {
            let (value, left) = bytes.split_at_checked(bytes.len().saturating_sub(rest.len()))?;
            return Some((value, left));
        }
        depth = opened(token, depth)?;
        rest = following;
    }
    None
}

/// How many brackets are open after this token, where so many are before it. None: it cannot stand there.
#[tactic(auto, using(crate::proofs::TokenLemmas::opens_one, crate::proofs::TokenLemmas::closes_one, crate::proofs::TokenLemmas::stays_open, crate::proofs::TokenLemmas::one_part))]
fn opened(token: Token<'_>, depth: u32) -> Option<u32>
    ensures { IfSome result (λ now. (front text : List ℕ) → Opens depth front → TokenText token.entry text → Opens now (front ++ text)) }
{
    match token {
        Token::Open => depth.checked_add(1),
        Token::Close => depth.checked_sub(1),
        Token::Space if depth == 0 => None,
        Token::Space | Token::Word(_) | Token::Quoted(_) | Token::Literal(_) => Some(depth),
    }
}

/// Reads a list of words in brackets; gives what stands between these, and the bytes after them.
pub(crate) fn read_list(bytes: &[u8]) -> Option<(&[u8], &[u8])>
    ensures { IfSome result (λ parts. bytes.now ≡ 40 ∷ (parts.0.now ++ 41 ∷ parts.1.now)) }
{
    let rest = bytes.strip_prefix(b"(")?;
    let (words, rest) = rest.split_at_checked(memchr(b')', rest)?)?;
    Some((words, rest.strip_prefix(b")")?))
}

#[tactic(auto, using(crate::proofs::TokenLemmas::word_token))]
fn read_word(bytes: &[u8]) -> Option<(Token<'_>, &[u8])>
    ensures { IfSome result (λ parts. BeginsToken bytes.now parts.0 parts.1.now) }
{
    let (word, rest) = bytes.split_at(word_end(bytes));
    if word.is_empty() {
        None
    } else {
        Some((Token::Word(word), rest))
    }
}

/// How many bytes stand before the first that ends a word.
#[tactic(auto, using(crate::proofs::TokenLemmas::word_before))]
fn word_end(bytes: &[u8]) -> usize
    ensures within { result ≤ length bytes.now }
    ensures word { list_all (λ b. not (ends_word b)) (take result bytes.now) ≡ true }
{
    first_end(bytes).unwrap_or(bytes.len())
}

/// Where the first byte is that ends a word.
fn first_end(bytes: &[u8]) -> Option<usize>
    ensures place { result ≡ position_from ends_word 0 bytes.now }
    ensures within { IfSome result (λ place. place < length bytes.now) }
{
    bytes.iter().position(|b| ends_word(*b))
}

fn ends_word(b: u8) -> bool
    ensures { result ≡ ends_word b }
{
    b <= b' ' || matches!(b, b'(' | b')' | b'"' | b'{')
}

/// Reads a quoted string after its first quote.
#[tactic(auto, using(crate::proofs::TokenLemmas::quoted_token))]
fn read_quoted(bytes: &[u8]) -> Option<(Token<'_>, &[u8])>
    ensures { IfSome result (λ parts. BeginsToken (34 ∷ bytes.now) parts.0 parts.1.now) }
{
    let (raw, rest) = bytes.split_at_checked(quote_place(bytes)?)?;
    Some((Token::Quoted(raw), rest.strip_prefix(b"\"")?))
}

/// Where the first quote stands that no backslash quotes.
fn quote_place(bytes: &[u8]) -> Option<usize>
    ensures { IfSome result (λ place. is_between_quotes false (take place bytes.now) ≡ true) }
{
    let mut after_slash = false;
    for (i, b) in bytes.iter().enumerate() {
        if ends_quoted(after_slash, *b) {
            return Some(i);
        }
        after_slash = is_slash(after_slash, *b);
    }
    None
}

/// Whether this byte ends a quoted string; the one before it may quote it.
fn ends_quoted(after_slash: bool, b: u8) -> bool
    ensures { result ≡ (not after_slash && b == 34) }
{
    !after_slash && b == b'"'
}

/// Whether this byte quotes the one after it.
fn is_slash(after_slash: bool, b: u8) -> bool
    ensures { result ≡ (not after_slash && b == 92) }
{
    !after_slash && b == b'\\'
}

/// Reads a literal after its `{`.
#[tactic(auto, using(crate::proofs::TokenLemmas::literal_begins, crate::proofs::TokenLemmas::literal_token, crate::proofs::TokenLemmas::tilde_token))]
fn read_literal(bytes: &[u8]) -> Option<(Token<'_>, &[u8])>
    ensures plain { IfSome result (λ parts. BeginsToken (123 ∷ bytes.now) parts.0 parts.1.now) }
    ensures tilde { IfSome result (λ parts. BeginsToken (126 ∷ (123 ∷ bytes.now)) parts.0 parts.1.now) }
{
    let (digits, rest) = split_digits(bytes);
    let len = number_of(digits)?;
    let rest = after_plus(rest).strip_prefix(b"}\r\n")?;
    let (octets, rest) = rest.split_at_checked(len as usize)?;
    Some((Token::Literal(octets), rest))
}

/// The bytes after a plus, if one stands at the front.
fn after_plus(bytes: &[u8]) -> &[u8]
    ensures { result.now ≡ after_plus bytes.now }
{
    bytes.strip_prefix(b"+").unwrap_or(bytes)
}

/// The digits at the front, and the bytes after them.
fn split_digits(bytes: &[u8]) -> (&[u8], &[u8])
    ensures { bytes.now ≡ result.0.now ++ result.1.now }
{
    let len = first_other(bytes).unwrap_or(bytes.len());
    bytes.split_at(len)
}

/// Where the first byte is that is no digit.
fn first_other(bytes: &[u8]) -> Option<usize>
    ensures { IfSome result (λ place. place < length bytes.now) }
{
    bytes.iter().position(|b| !is_digit(*b))
}

/// The number of these digits, or 4294967295 if it is greater. None: they are no digits.
pub(crate) fn number_of(word: &[u8]) -> Option<u32>
    ensures { IfSome result (λ n. (is_number word.now ≡ true) × (n ≡ number_in word.now)) }
{
    if !is_number(word) {
        return None;
    }
    let mut number = 0;
    for b in word {
        number = with_digit(number, *b);
    }
    Some(number)
}

/// The number with a digit more, or 4294967295 if it is greater.
fn with_digit(number: u32, digit: u8) -> u32
    ensures { is_ascii_digit digit ≡ true → result ≡ min greatest (10 * number + (digit - 48)) }
{
    number
        .saturating_mul(10)
        .saturating_add(u32::from(digit.wrapping_sub(b'0')))
}

/// The bytes without the backslashes that quote the byte after them.
///
/// `AllocError`: memory ran out.
pub(crate) fn unescaped(alloc: Global, raw: &[u8]) -> Result<Vec<u8>, AllocError>
    ensures { IfOk result (λ value. value.items ≡ unescaped raw.now) }
{
    let mut value = Vec::with_capacity(alloc, raw.len())?;
    let mut after_slash = false;
    for b in raw {
        if !after_slash && *b == b'\\' {
            after_slash = true;
        } else {
            value.push(*b)?;
            after_slash = false;
        }
    }
    Ok(value)
}
