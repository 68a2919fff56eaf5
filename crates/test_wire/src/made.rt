//! Values that are made of whole bytes, and not read at the front of more.

use crate::command::print_command;
use crate::reporting::print_line;
use crate::tokens::Tokens;
use imap_wire::{
    Atom, Command, ListPattern, NameList, Names, OtherCode, OtherEvent, OtherWord, PlainText,
    Request, SentMessage, Tag, Text,
};
use std::alloc::AllocError;
use test_scripts::reported::Reported;
use test_scripts::words::Words;
use wire_tokens::names::read_names;

/// Reports what is made of the bytes and how it is written; nothing if they make none. The line is refused if there is no such kind.
pub fn make(
    tokens: &mut Tokens,
    kind: &str,
    bytes: &[u8],
    line: &mut Words<'_>,
    reported: &mut Reported,
) -> Option<()> {
    let done = match kind {
        "atom" => {
            let atom = Atom::read(bytes)?;
            print_line(reported, "is ", atom.text());
            atom.write(&mut tokens.out)
        }
        "tag" => {
            let tag = Tag::read(bytes)?;
            print_line(reported, "is ", tag.text());
            tag.write(&mut tokens.out)
        }
        "one-name" => {
            let names = Names::one(&Atom::read(bytes)?);
            print_line(reported, "is ", names.text());
            names.write(&mut tokens.out)
        }
        "name-list" => {
            let (names, _) = read_names(bytes).ok()?;
            make_copy(tokens, &names, reported)
        }
        "plain-text" => {
            let text = PlainText::read(bytes)?;
            print_line(reported, "is ", text.bytes());
            text.write(&mut tokens.out)
        }
        _ => {
            print_line(reported, "is ", other(kind, bytes, line)?);
            Ok(())
        }
    };
    tokens.print_written(reported, done);
    Some(())
}

/// The text of a word without a form of its own, if the bytes are one.
fn other<'a>(kind: &str, bytes: &'a [u8], line: &mut Words<'_>) -> Option<&'a [u8]> {
    match kind {
        "other-word" => Some(OtherWord::read(bytes)?.text()),
        "other-event" => Some(OtherEvent::read(bytes)?.text()),
        "other-code" => Some(OtherCode::read(bytes)?.text()),
        _ => {
            line.refuse();
            None
        }
    }
}

fn make_copy(
    tokens: &mut Tokens,
    names: &Names<'_>,
    reported: &mut Reported,
) -> Result<(), AllocError> {
    let list = NameList::copy_of(tokens.alloc, names)?;
    print_line(reported, "is ", list.names().text());
    list.names().write(&mut tokens.out)
}

/// The same of what keeps the bytes: a text, a pattern, or else a message. Of a pattern a LIST command is reported too.
pub fn make_of_vec(
    tokens: &mut Tokens,
    kind: &str,
    bytes: Vec<u8>,
    reported: &mut Reported,
) -> Option<()> {
    match kind {
        "text" => {
            let text = Text::from_vec(bytes)?;
            print_line(reported, "is ", text.as_slice());
            let done = text.write(&mut tokens.out);
            tokens.print_written(reported, done);
        }
        "pattern" => {
            let pattern = ListPattern::new(bytes)?;
            print_line(reported, "is ", pattern.bytes());
            let done = pattern.write(&mut tokens.out);
            tokens.print_written(reported, done);
            list(tokens, pattern, reported);
        }
        _ => {
            let message = SentMessage::new(bytes)?;
            print_line(reported, "is ", message.octets());
            let done = message.write(&mut tokens.out);
            tokens.print_written(reported, done);
            print_line(reported, "gives back ", &message.into_vec());
        }
    }
    Some(())
}

fn list(tokens: &mut Tokens, pattern: ListPattern, reported: &mut Reported) {
    if let Some(tag) = Tag::read(b"A1") {
        let request = Request::List(pattern);
        tokens.empty();
        print_command(tokens, reported, &Command { tag, request });
    }
}
