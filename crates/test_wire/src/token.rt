//! The tokens at the front of bytes: what is taken, what the value is, and how it is written again.

use crate::reporting::{print_bytes, print_count, print_flags, print_line, print_taken};
use crate::sets::print_set;
use crate::strings::print_nstring;
use crate::tokens::Tokens;
use mailcore::flags::Flags;
use mailcore::keywords::Keywords;
use std::alloc::AllocError;
use test_scripts::reported::Reported;
use test_scripts::words::Words;
use wire_reader::side::Speaker;
use wire_reader::stop::{ReadError, Stop};
use wire_strings::code_text::read_code_text;
use wire_strings::delimiter::read_delimiter;
use wire_strings::line_text::read_line_text;
use wire_strings::plain_text::read_plain_text;
use wire_strings::quoted::read_quoted;
use wire_strings::string::{WireString, read_nstring, read_string};
use wire_strings::text::read_text;
use wire_tokens::atom::read_atom;
use wire_tokens::flag_list::{
    FlagList, FlagNames, PermanentFlags, read_flags, read_permanent_flags,
};
use wire_tokens::names::read_names;
use wire_tokens::number::{number, nz, write_number};
use wire_tokens::tag::read_tag;
use wire_tokens::uid_set::uid_set;

/// Reports what the reader of this token answers. The line is refused if there is none.
pub fn print_token(
    tokens: &mut Tokens,
    token: &str,
    bytes: &[u8],
    line: &mut Words<'_>,
    reported: &mut Reported,
) -> Result<(), ReadError> {
    match token {
        "number" | "nz" | "atom" | "tag" | "names" => print_word(tokens, token, bytes, reported)?,
        "flags" | "permanent-flags" | "attributes" => print_list(tokens, token, bytes, reported)?,
        "delimiter" | "quoted" | "string" | "nstring" => print_string(
            tokens, token, bytes, reported,
        )?,
        "line-text" | "plain-text" | "code-text" => print_text(tokens, token, bytes, reported)?,
        "text" | "set" => print_kept(tokens, token, bytes, reported)?,
        _ => line.refuse(),
    }
    Ok(())
}

/// A number, an atom, a tag or names.
fn print_word(
    tokens: &mut Tokens,
    token: &str,
    bytes: &[u8],
    reported: &mut Reported,
) -> Result<(), Stop> {
    let done = match token {
        "number" => {
            let (number, rest) = number(bytes)?;
            print_taken(reported, bytes, rest);
            print_count(reported, "is ", number as usize, "");
            write_number(number, &mut tokens.out)
        }
        "nz" => {
            let (number, rest) = nz(bytes)?;
            print_taken(reported, bytes, rest);
            print_count(reported, "is ", number.get() as usize, "");
            number.write(&mut tokens.out)
        }
        "atom" => {
            let (atom, rest) = read_atom(bytes)?;
            print_taken(reported, bytes, rest);
            print_line(reported, "is ", atom.text());
            atom.write(&mut tokens.out)
        }
        "tag" => {
            let (tag, rest) = read_tag(bytes)?;
            print_taken(reported, bytes, rest);
            print_line(reported, "is ", tag.text());
            tag.write(&mut tokens.out)
        }
        _ => {
            let (names, rest) = read_names(bytes)?;
            print_taken(reported, bytes, rest);
            print_line(reported, "is ", names.text());
            names.write(&mut tokens.out)
        }
    };
    tokens.print_written(reported, done);
    Ok(())
}

/// Flags or attributes.
fn print_list(
    tokens: &mut Tokens,
    token: &str,
    bytes: &[u8],
    reported: &mut Reported,
) -> Result<(), Stop> {
    let done = match token {
        "flags" => {
            let (names, rest) = read_flags(bytes)?;
            print_taken(reported, bytes, rest);
            let set = names.named(&Keywords::new(tokens.alloc));
            print_flags(reported, "  is ", set);
            write_set(tokens, set)
        }
        "permanent-flags" => {
            let (names, rest) = read_permanent_flags(bytes)?;
            print_taken(reported, bytes, rest);
            print_permanent(tokens, reported, "  is ", &names);
            write_permanent(tokens, &names)
        }
        _ => {
            let (attributes, rest) = read_flags(bytes)?;
            print_taken(reported, bytes, rest);
            print_attributes(tokens, reported, "  is ", &attributes);
            attributes.write(&mut tokens.out)
        }
    };
    reported.end();
    tokens.print_written(reported, done);
    Ok(())
}

/// Adds words and attributes, which show by their writing alone.
pub fn print_attributes(
    tokens: &mut Tokens,
    reported: &mut Reported,
    words: &str,
    attributes: &FlagNames<'_>,
) {
    let mut text = Vec::new(tokens.alloc);
    tokens.note(attributes.write(&mut text));
    print_bytes(reported, words, &text);
}

/// Adds words, and flags that may be changed, and whether others may be made.
pub fn print_permanent(
    tokens: &Tokens,
    reported: &mut Reported,
    words: &str,
    names: &PermanentFlags<'_>,
) {
    print_flags(reported, words, names.named(&Keywords::new(tokens.alloc)));
    reported.text(if names.contains(b"\\*") {
        ", and others"
    } else {
        ""
    });
}

/// Writes a set of flags by their names.
fn write_set(tokens: &mut Tokens, set: Flags) -> Result<(), AllocError> {
    let names = FlagList::of(tokens.alloc, set, &Keywords::new(tokens.alloc))?;
    names.write(&mut tokens.out)
}

/// The same of flags that may be changed; where others may be made, they are written as they were read.
fn write_permanent(tokens: &mut Tokens, names: &PermanentFlags<'_>) -> Result<(), AllocError> {
    if names.contains(b"\\*") {
        return names.write(&mut tokens.out);
    }
    let keywords = Keywords::new(tokens.alloc);
    let list = FlagList::of(tokens.alloc, names.named(&keywords), &keywords)?;
    list.names().permanent().write(&mut tokens.out)
}

/// A delimiter, or a string of a reply; NIL has no writer of its own.
fn print_string(
    tokens: &mut Tokens,
    token: &str,
    bytes: &[u8],
    reported: &mut Reported,
) -> Result<(), Stop> {
    let (string, rest) = match token {
        "delimiter" => {
            let (delimiter, rest) = read_delimiter(bytes)?;
            print_taken(reported, bytes, rest);
            print_line(reported, "is ", &[delimiter.byte()]);
            let done = delimiter.write(&mut tokens.out);
            tokens.print_written(reported, done);
            return Ok(());
        }
        "quoted" => {
            let (quoted, rest) = read_quoted(bytes)?;
            (Some(WireString::Quoted(quoted)), rest)
        }
        "string" => {
            let (string, rest) = read_string(Speaker::Replies, bytes)?;
            (Some(string), rest)
        }
        _ => read_nstring(Speaker::Replies, bytes)?,
    };
    print_taken(reported, bytes, rest);
    print_nstring(tokens, reported, "  is ", &string);
    reported.end();
    if let Some(string) = string {
        let done = string.write(&mut tokens.out);
        tokens.print_written(reported, done);
    }
    Ok(())
}

/// A text that ends a line, or one of a response.
fn print_text(
    tokens: &mut Tokens,
    token: &str,
    bytes: &[u8],
    reported: &mut Reported,
) -> Result<(), Stop> {
    let done = match token {
        "line-text" => {
            let (text, rest) = read_line_text(bytes)?;
            print_taken(reported, bytes, rest);
            print_line(reported, "is ", text.bytes());
            text.write(&mut tokens.out)
        }
        "plain-text" => {
            let (text, rest) = read_plain_text(bytes)?;
            print_taken(reported, bytes, rest);
            print_line(reported, "is ", text.bytes());
            text.write(&mut tokens.out)
        }
        _ => {
            let (text, rest) = read_code_text(bytes)?;
            print_taken(reported, bytes, rest);
            print_line(reported, "is ", text.bytes());
            text.write(&mut tokens.out)
        }
    };
    tokens.print_written(reported, done);
    Ok(())
}

/// What takes memory: an atom or a string of a command, by the bytes for which it stands, or a set of UIDs.
fn print_kept(
    tokens: &mut Tokens,
    token: &str,
    bytes: &[u8],
    reported: &mut Reported,
) -> Result<(), ReadError> {
    let done = match token {
        "text" => {
            let (text, rest) = read_text(tokens.alloc, Speaker::Commands, bytes)?;
            print_taken(reported, bytes, rest);
            print_line(reported, "is ", text.as_slice());
            text.write(&mut tokens.out)
        }
        _ => {
            let (set, rest) = uid_set(tokens.alloc, bytes)?;
            print_taken(reported, bytes, rest);
            print_set(reported, "  is ", &set);
            reported.end();
            set.write(&mut tokens.out)
        }
    };
    tokens.print_written(reported, done);
    Ok(())
}
