//! Writing of replies, and those that more than one command gets. Where memory runs out, a part may be written.

ghost use Rattle.std.specs.Prelude.{◌≡◌, ◌∷◌, [], true, codes, OnOk};
ghost use Rattle.std.specs.List.{list_all};
ghost use Rattle.wire_strings.specs.Texts.{is_text, IsPlain};
ghost use Rattle.imap_replies.specs.Others.{IsOtherCode};
ghost use Rattle.imap_session.specs.Answering.{done, done_with, bad, refused, refused_with, note, bye, go};
ghost use Rattle.imap_server.specs.Writing.{Wrote};

use crate::words::{coded, line_text, plain, word_code};
use imap_replies::reply::Reply;
use imap_replies::response::Code;
use imap_replies::word::{NoticeKind, Status};
use imap_replies::writing::write_reply;
use std::alloc::AllocError;
use wire_tokens::tag::Tag;

/// Writes the reply.
pub(crate) fn say(reply: &Reply<'_>, out: &mut Vec<u8>) -> Result<(), AllocError>
    ensures { OnOk result (Wrote (reply.now ∷ []) out.old.items out.new.items) }
{
    write_reply(reply, out)
}

/// Writes `tag OK done`.
pub(crate) fn say_done(tag: Tag, out: &mut Vec<u8>) -> Result<(), AllocError>
    ensures { OnOk result (Wrote (done tag ∷ []) out.old.items out.new.items) }
{
    say(&Reply::Tagged(tag, Status::Ok, plain(b"done")), out)
}

/// Writes `tag OK [code] done`.
pub(crate) fn say_done_with(tag: Tag, code: Code<'_>, out: &mut Vec<u8>) -> Result<(), AllocError>
    ensures { OnOk result (Wrote (done_with tag code.entry ∷ []) out.old.items out.new.items) }
{
    say(&Reply::Tagged(tag, Status::Ok, coded(code, b"done")), out)
}

/// Writes `tag BAD text`.
pub(crate) fn say_bad(tag: Tag, text: &'static [u8], out: &mut Vec<u8>) -> Result<(), AllocError>
    requires { IsPlain text.now }
    ensures { OnOk result (Wrote (bad tag text.now ∷ []) out.old.items out.new.items) }
{
    say(&Reply::Tagged(tag, Status::Bad, plain(text)), out)
}

/// Writes `tag NO text`.
pub(crate) fn say_no(tag: Tag, text: &'static [u8], out: &mut Vec<u8>) -> Result<(), AllocError>
    requires { IsPlain text.now }
    ensures { OnOk result (Wrote (refused tag text.now ∷ []) out.old.items out.new.items) }
{
    say(&Reply::Tagged(tag, Status::No, plain(text)), out)
}

/// Writes `tag NO [word] text`.
pub(crate) fn say_no_with(
    tag: Tag,
    word: &'static [u8],
    text: &'static [u8],
    out: &mut Vec<u8>,
) -> Result<(), AllocError>
    requires code { IsOtherCode word.now }
    requires text { list_all is_text text.now ≡ true }
    ensures { OnOk result (Wrote (refused_with tag word.now text.now ∷ []) out.old.items out.new.items) }
{
    let text = coded(word_code(word), text);
    say(&Reply::Tagged(tag, Status::No, text), out)
}

/// Writes `* OK [code] text`.
pub(crate) fn say_note(
    code: Code<'_>,
    text: &'static [u8],
    out: &mut Vec<u8>,
) -> Result<(), AllocError>
    requires { list_all is_text text.now ≡ true }
    ensures { OnOk result (Wrote (note code.entry text.now ∷ []) out.old.items out.new.items) }
{
    say(&Reply::Notice(NoticeKind::Ok, coded(code, text)), out)
}

/// Writes `tag BAD state`: the command does not belong here.
pub(crate) fn say_out_of_place(tag: Tag, out: &mut Vec<u8>) -> Result<(), AllocError>
    ensures { OnOk result (Wrote (bad tag (codes "state") ∷ []) out.old.items out.new.items) }
{
    say_bad(tag, b"state", out)
}

/// Writes `* BYE text`.
pub(crate) fn say_bye(text: &'static [u8], out: &mut Vec<u8>) -> Result<(), AllocError>
    requires { IsPlain text.now }
    ensures { OnOk result (Wrote (bye text.now ∷ []) out.old.items out.new.items) }
{
    say(&Reply::Notice(NoticeKind::Bye, plain(text)), out)
}

/// Writes `+ go`.
pub(crate) fn say_go(out: &mut Vec<u8>) -> Result<(), AllocError>
    ensures { OnOk result (Wrote (go ∷ []) out.old.items out.new.items) }
{
    say(&Reply::Continue(line_text(b"go")), out)
}
