//! The texts and codes of replies that never change.

ghost use Rattle.std.specs.Prelude.{◌≡◌, true, None};
ghost use Rattle.std.specs.List.{list_all};
ghost use Rattle.wire_strings.specs.Texts.{is_text, IsPlain};
ghost use Rattle.imap_replies.specs.Others.{IsOtherCode};
ghost use Rattle.imap_session.specs.Answering.{word_code};

use imap_replies::other::OtherCode;
use imap_replies::response::{Code, ResponseText};
use wire_strings::line_text::LineText;
use wire_strings::plain_text::PlainText;

/// A text without a code.
pub(crate) fn plain(text: &'static [u8]) -> ResponseText<'static>
    requires { IsPlain text.now }
    ensures { result ≡ ResponseText.Plain text.now }
{
    match PlainText::read(text) {
        Some(text) => ResponseText::Plain(text),
        None => unreachable!(),
    }
}

/// A text after a code.
pub(crate) fn coded<'a>(code: Code<'a>, text: &'static [u8]) -> ResponseText<'a>
    requires { list_all is_text text.now ≡ true }
    ensures { result ≡ ResponseText.Coded code.entry text.now }
{
    ResponseText::Coded(code, line_text(text))
}

/// A text of a line.
pub(crate) fn line_text(text: &'static [u8]) -> LineText<'static>
    requires { list_all is_text text.now ≡ true }
    ensures { result ≡ text.now }
{
    match LineText::read(text) {
        Some(text) => text,
        None => unreachable!(),
    }
}

/// A code that is a word alone.
pub(crate) fn word_code(word: &'static [u8]) -> Code<'static>
    requires { IsOtherCode word.now }
    ensures { result ≡ word_code word.now }
{
    match OtherCode::read(word) {
        Some(word) => Code::Other(word, None),
        None => unreachable!(),
    }
}
