//! Words in any case, and one of several words.

ghost use Rattle.std.specs.Prelude.{◌≡◌};
ghost use Rattle.wire_reader.specs.Given.{Gives, viewed};
ghost use Rattle.wire_reader.specs.Reading.{mapped};
ghost use Rattle.wire_reader.specs.Words.{word_at, either};

use crate::stop::{Kind, Stop};

/// Reads a word in any case, which is given in upper case; gives the bytes after it.
pub fn word<'a>(word: &[u8], bytes: &'a [u8]) -> Result<&'a [u8], Stop>
    ensures { Gives (λ r. (tt, r.now)) result (word_at word.now bytes.now) }
{
    let mut rest = bytes;
    for c in word {
        match rest {
            [] => return Err(Stop::Ends(None)),
            [b, after @ ..] => {
                if b.to_ascii_uppercase() != *c {
                    return Err(Stop::Fails(Kind::Syntax, rest.len()));
                }
                rest = after;
            }
        }
    }
    Ok(rest)
}

/// Reads the word of this key.
pub fn keyed<'a, K: Copy>(key: K, text: &[u8], bytes: &'a [u8]) -> Result<(K, &'a [u8]), Stop>
    ensures { Gives (λ r. (r.0, r.1.now)) result (mapped (λ _. key) (word_at text.now) bytes.now) }
{
    let rest = word(text, bytes)?;
    Ok((key, rest))
}

/// The first answer that is a key, else that the bytes end, else the later fault.
pub fn either<'a, K: Copy>(
    one: Result<(K, &'a [u8]), Stop>,
    other: Result<(K, &'a [u8]), Stop>,
) -> Result<(K, &'a [u8]), Stop>
    ensures { viewed (λ r. (r.0, r.1.now)) result ≡ either (viewed (λ r. (r.0, r.1.now)) one.entry) (viewed (λ r. (r.0, r.1.now)) other.entry) }
{
    match (one, other) {
        (Ok(found), _) => Ok(found),
        (Err(_), Ok(found)) => Ok(found),
        (Err(Stop::Ends(asked)), Err(_)) => Err(Stop::Ends(asked)),
        (Err(Stop::Fails(..)), Err(Stop::Ends(asked))) => Err(Stop::Ends(asked)),
        (Err(Stop::Fails(kind, left)), Err(Stop::Fails(other_kind, other_left))) => {
            if other_left < left {
                Err(Stop::Fails(other_kind, other_left))
            } else {
                Err(Stop::Fails(kind, left))
            }
        }
    }
}
