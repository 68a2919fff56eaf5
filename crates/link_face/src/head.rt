//! How a reply begins (RFC 9051, section 7).

ghost use Rattle.std.specs.Prelude.{◌≡◌, ◌<◌, ℕ, List, length, codes, IfSome, false};
ghost use Rattle.std.specs.Char.{is_ascii_digit};
ghost use Rattle.std.specs.List.{list_all, position_from};
ghost use Rattle.link_face.specs.Heads.{after_space, after_word, ends_well, first_word, following, is_gap, is_number, second_word, HeadIs};

/// What a reply is, by its first words. What follows them is lent, with the space and the line end.
#[derive(Clone, Copy)]
pub(crate) enum ReplyHead<'a> {
    /// `+`: a continuation request.
    Continue,
    /// A status response, tagged or not.
    Status(StatusLine<'a>),
    /// CAPABILITY or ENABLED.
    Names(&'a [u8], &'a [u8]),
    /// LIST.
    List(&'a [u8]),
    /// FLAGS.
    Flags(&'a [u8]),
    /// A number, the word after it, and the rest.
    Numbered(&'a [u8], &'a [u8], &'a [u8]),
    /// Another reply, or an empty line.
    Other,
    /// Anything else: neither `*` nor `+` nor the status of a command begins it, as in no reply.
    NoReply,
}

/// A status response: no literal stands in it (RFC 9051, section 7.1).
#[derive(Clone, Copy)]
pub(crate) struct StatusLine<'a> {
    /// `*` or the tag.
    pub(crate) tag: &'a [u8],
    /// OK, NO, BAD, BYE or PREAUTH, in any case.
    pub(crate) word: &'a [u8],
    /// The rest of the line.
    pub(crate) text: &'a [u8],
}

/// How these bytes begin.
pub(crate) fn head_of(raw: &[u8]) -> ReplyHead<'_>
    ensures { HeadIs raw.now result }
{
    if raw.starts_with(b"+") {
        return ReplyHead::Continue;
    }
    let (tag, rest) = split_word(raw);
    let (word, text) = split_word(after_space(rest));
    let is_untagged = tag == b"*".as_slice();
    if is_number(word) {
        return if is_untagged {
            numbered(word, text)
        } else {
            ReplyHead::NoReply
        };
    }
    if is_status_word(word) || (is_untagged && is_greeting_word(word)) {
        ReplyHead::Status(StatusLine { tag, word, text })
    } else if is_untagged {
        untagged(word, text)
    } else if tag.is_empty() && raw.trim_ascii().is_empty() {
        ReplyHead::Other
    } else {
        ReplyHead::NoReply
    }
}

/// Whether no literal stands in the reply that begins so: it ends with its first line.
pub(crate) fn is_line(raw: &[u8]) -> bool {
    matches!(head_of(raw), ReplyHead::Continue | ReplyHead::Status(_))
}

/// Whether the reply is the OK that ends a command.
pub(crate) fn is_tagged_ok(raw: &[u8]) -> bool
    ensures { result ≡ ends_well raw.now }
{
    let (tag, rest) = split_word(raw);
    let (word, _) = split_word(after_space(rest));
    tag != b"*".as_slice() && word.eq_ignore_ascii_case(b"OK")
}

/// What an untagged reply is that is no status response and has no number.
fn untagged<'a>(word: &'a [u8], rest: &'a [u8]) -> ReplyHead<'a>
    ensures { (raw : List ℕ) → first_word raw ≡ codes "*" → word.now ≡ second_word raw → is_number (second_word raw) ≡ false → HeadIs raw result }
{
    if word.eq_ignore_ascii_case(b"CAPABILITY") || word.eq_ignore_ascii_case(b"ENABLED") {
        ReplyHead::Names(word, rest)
    } else if word.eq_ignore_ascii_case(b"LIST") {
        ReplyHead::List(rest)
    } else if word.eq_ignore_ascii_case(b"FLAGS") {
        ReplyHead::Flags(rest)
    } else {
        ReplyHead::Other
    }
}

/// An untagged reply with a number.
fn numbered<'a>(number: &'a [u8], rest: &'a [u8]) -> ReplyHead<'a>
    ensures { (raw : List ℕ) → first_word raw ≡ codes "*" → number.now ≡ second_word raw → rest.now ≡ after_word (following raw) → HeadIs raw result }
{
    let (event, following) = split_word(after_space(rest));
    ReplyHead::Numbered(number, event, following)
}

/// The bytes up to the first that is a space or a control, and those from it on.
fn split_word(bytes: &[u8]) -> (&[u8], &[u8])
    ensures word { result.0.now ≡ first_word bytes.now }
    ensures rest { result.1.now ≡ after_word bytes.now }
{
    let len = first_gap(bytes).unwrap_or(bytes.len());
    bytes.split_at(len)
}

/// Where the first space or control is.
fn first_gap(bytes: &[u8]) -> Option<usize>
    ensures place { result ≡ position_from is_gap 0 bytes.now }
    ensures within { IfSome result (λ place. place < length bytes.now) }
{
    bytes.iter().position(|b| is_gap(*b))
}

fn is_gap(b: u8) -> bool
    ensures { result ≡ is_gap b }
{
    b <= b' '
}

/// The bytes after a space, if one stands at the front.
pub(crate) fn after_space(bytes: &[u8]) -> &[u8]
    ensures { result.now ≡ after_space bytes.now }
{
    bytes.strip_prefix(b" ").unwrap_or(bytes)
}

/// Whether the bytes are digits, and at least one.
pub(crate) fn is_number(word: &[u8]) -> bool
    ensures { result ≡ is_number word.now }
{
    !word.is_empty() && are_digits(word)
}

fn are_digits(word: &[u8]) -> bool
    ensures { result ≡ list_all is_ascii_digit word.now }
{
    word.iter().all(|b| is_digit(*b))
}

pub(crate) fn is_digit(b: u8) -> bool
    ensures { result ≡ is_ascii_digit b }
{
    b.is_ascii_digit()
}

/// Whether the word is one of those that end a command.
fn is_status_word(word: &[u8]) -> bool {
    word.eq_ignore_ascii_case(b"OK")
        || word.eq_ignore_ascii_case(b"NO")
        || word.eq_ignore_ascii_case(b"BAD")
}

/// Whether the word is one of those that begin or end a connection.
fn is_greeting_word(word: &[u8]) -> bool {
    word.eq_ignore_ascii_case(b"BYE") || word.eq_ignore_ascii_case(b"PREAUTH")
}
