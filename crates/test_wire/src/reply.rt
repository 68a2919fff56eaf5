//! Replies.

use crate::reporting::{print_bytes, print_flags, print_number};
use crate::strings::{print_astring, print_nstring};
use crate::token::{print_attributes, print_permanent};
use crate::tokens::Tokens;
use imap_wire::{
    Code, FetchItem, LineText, Names, NoticeKind, Reply, ResponseText, Status, write_reply,
};
use mailcore::keywords::Keywords;
use test_scripts::reported::Reported;

/// Reports what a reply is and how it is written.
pub fn print_reply(tokens: &mut Tokens, reported: &mut Reported, reply: &Reply<'_>) {
    reported.begin();
    reported.text("is ");
    print_parts(tokens, reported, reply);
    reported.end();
    let done = write_reply(reply, &mut tokens.out);
    tokens.print_written(reported, done);
}

fn print_parts(tokens: &mut Tokens, reported: &mut Reported, reply: &Reply<'_>) {
    match reply {
        Reply::Continue(text) => print_bytes(reported, "continue, text ", text.bytes()),
        Reply::Tagged(tag, status, text) => {
            print_bytes(reported, "tag ", tag.text());
            reported.text(status_words(*status));
            print_response(tokens, reported, text);
        }
        Reply::Notice(kind, text) => {
            reported.text(notice_words(*kind));
            print_response(tokens, reported, text);
        }
        Reply::Capability(names) => print_names(reported, "CAPABILITY of ", names),
        Reply::Enabled(names) => print_names(reported, "ENABLED of ", names),
        Reply::List(attributes, delimiter, name) => {
            print_astring(tokens, reported, "LIST of ", name);
            print_attributes(tokens, reported, ", attributes ", attributes);
            match delimiter {
                Some(delimiter) => print_bytes(reported, ", delimiter ", &[delimiter.byte()]),
                None => reported.text(", no delimiter"),
            }
        }
        Reply::Flags(names) => print_flags(
            reported,
            "FLAGS ",
            names.named(&Keywords::new(tokens.alloc)),
        ),
        Reply::Exists(count) => {
            reported.text("EXISTS ");
            reported.number(u64::from(*count));
        }
        Reply::Expunge(number) => print_number(reported, "EXPUNGE ", number),
        Reply::Fetch(number, list) => {
            print_number(reported, "FETCH ", number);
            print_items(tokens, reported, list.items());
        }
        Reply::Other(word, text) => {
            print_bytes(reported, "other word ", word.text());
            print_rest(reported, text);
        }
        Reply::OtherNumbered(number, event, text) => {
            reported.text("number ");
            reported.number(u64::from(*number));
            print_bytes(reported, ", other word ", event.text());
            print_rest(reported, text);
        }
    }
}

fn print_names(reported: &mut Reported, words: &str, names: &Option<Names<'_>>) {
    match names {
        Some(names) => print_bytes(reported, words, names.text()),
        None => {
            reported.text(words);
            reported.text("nothing");
        }
    }
}

fn print_items(tokens: &mut Tokens, reported: &mut Reported, items: &[FetchItem<'_>]) {
    for item in items {
        match item {
            FetchItem::Uid(uid) => print_number(reported, ", UID ", uid),
            FetchItem::Flags(names) => {
                print_flags(
                    reported,
                    ", flags ",
                    names.named(&Keywords::new(tokens.alloc)),
                );
            }
            FetchItem::Size(size) => {
                reported.text(", size ");
                reported.number(u64::from(*size));
            }
            FetchItem::Body(body) => print_nstring(tokens, reported, ", body ", body),
            FetchItem::Head(head) => print_nstring(tokens, reported, ", beginning of body ", head),
        }
    }
}

/// Adds the text after a word, if one stands there.
fn print_rest(reported: &mut Reported, text: &Option<LineText<'_>>) {
    if let Some(text) = text {
        print_bytes(reported, ", text ", text.bytes());
    }
}

/// Adds a text, and the code before it if one stands there.
fn print_response(tokens: &Tokens, reported: &mut Reported, text: &ResponseText<'_>) {
    match text {
        ResponseText::Plain(text) => print_bytes(reported, "text ", text.bytes()),
        ResponseText::Coded(code, text) => {
            reported.text("code ");
            print_code(tokens, reported, code);
            print_bytes(reported, ", text ", text.bytes());
        }
    }
}

fn print_code(tokens: &Tokens, reported: &mut Reported, code: &Code<'_>) {
    match code {
        Code::UidNext(uid) => print_number(reported, "UIDNEXT ", uid),
        Code::UidValidity(validity) => print_number(reported, "UIDVALIDITY ", validity),
        Code::PermanentFlags(names) => print_permanent(tokens, reported, "PERMANENTFLAGS ", names),
        Code::AppendUid(validity, uid) => {
            print_number(reported, "APPENDUID ", validity);
            print_number(reported, " ", uid);
        }
        Code::ReadOnly => reported.text("READ-ONLY"),
        Code::ReadWrite => reported.text("READ-WRITE"),
        Code::Other(code, text) => {
            print_bytes(reported, "other ", code.text());
            if let Some(text) = text {
                print_bytes(reported, " with ", text.bytes());
            }
        }
    }
}

fn status_words(status: Status) -> &'static str {
    match status {
        Status::Ok => ", Ok, ",
        Status::No => ", No, ",
        Status::Bad => ", Bad, ",
    }
}

fn notice_words(kind: NoticeKind) -> &'static str {
    match kind {
        NoticeKind::Ok => "notice Ok, ",
        NoticeKind::No => "notice No, ",
        NoticeKind::Bad => "notice Bad, ",
        NoticeKind::Bye => "notice Bye, ",
        NoticeKind::Preauth => "notice Preauth, ",
    }
}
