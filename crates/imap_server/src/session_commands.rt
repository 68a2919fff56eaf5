//! CAPABILITY, NOOP, LOGOUT, LOGIN, ENABLE (RFC 9051, sections 6.1.1, 6.1.2, 6.1.3, 6.2.3 and 6.3.1).

ghost use Rattle.std.specs.Prelude.{◌≡◌, ◌∷◌, [], None, Some, if◌then◌else◌};
ghost use Rattle.wire_tokens.specs.Names.{has_name};
ghost use Rattle.imap_session.specs.SessionCommands.{REV2};

use crate::condition::ConnectionState;
use crate::service::Service;
use crate::writing::{say, say_bye, say_done, say_no_with, say_out_of_place};
use imap_replies::reply::Reply;
use std::alloc::AllocError;
use wire_strings::text::Text;
use wire_tokens::atom::Atom;
use wire_tokens::names::{NameList, Names};
use wire_tokens::tag::Tag;

impl Service {
    ghost use Rattle.std.specs.Prelude.{◌≡◌, OnOk, OnErr};
    ghost use Rattle.imap_session.specs.SessionCommands.{reports_capabilities, does_nothing, logs_out, logs_in, enables};
    ghost use Rattle.imap_server.specs.Writing.{Answered};

    /// Answers CAPABILITY.
    pub(crate) fn capability(&self, tag: Tag, out: &mut Vec<u8>) -> Result<(), AllocError>
        ensures { OnOk result (Answered (reports_capabilities self.now tag) out.old.items out.new.items self.now) }
    {
        say(&Reply::Capability(rev2()), out)?;
        say_done(tag, out)?;
        Ok(())
    }

    /// Answers NOOP.
    pub(crate) fn noop(&self, tag: Tag, out: &mut Vec<u8>) -> Result<(), AllocError>
        ensures { OnOk result (Answered (does_nothing self.now tag) out.old.items out.new.items self.now) }
    {
        say_done(tag, out)?;
        Ok(())
    }

    /// Answers LOGOUT.
    pub(crate) fn logout(&mut self, tag: Tag, out: &mut Vec<u8>) -> Result<(), AllocError>
        ensures ok { OnOk result (Answered (logs_out self.old tag) out.old.items out.new.items self.new) }
        ensures err { OnErr result (self.new ≡ self.old) }
    {
        say_bye(b"bye", out)?;
        say_done(tag, out)?;
        self.condition = ConnectionState::LoggedOut;
        Ok(())
    }

    /// Answers LOGIN.
    pub(crate) fn login(
        &mut self,
        tag: Tag,
        user: &Text,
        password: &Text,
        out: &mut Vec<u8>,
    ) -> Result<(), AllocError>
        ensures ok { OnOk result (Answered (logs_in self.old tag user.now password.now) out.old.items out.new.items self.new) }
        ensures err { OnErr result (self.new ≡ self.old) }
    {
        if !self.is_before_login() {
            return say_out_of_place(tag, out);
        }
        if user.as_slice() == self.user.as_slice()
            && password.as_slice() == self.password.as_slice()
        {
            say_done(tag, out)?;
            self.condition = ConnectionState::Authenticated;
            Ok(())
        } else {
            say_no_with(tag, b"AUTHENTICATIONFAILED", b"login", out)
        }
    }

    /// Answers ENABLE.
    pub(crate) fn enable(
        &self,
        tag: Tag,
        names: &NameList,
        out: &mut Vec<u8>,
    ) -> Result<(), AllocError>
        ensures { OnOk result (Answered (enables self.now tag names.now) out.old.items out.new.items self.now) }
    {
        if !self.is_logged_in() {
            return say_out_of_place(tag, out);
        }
        say(&Reply::Enabled(enabled(names)), out)?;
        say_done(tag, out)?;
        Ok(())
    }
}

/// What of these names is enabled: IMAP4rev2, or nothing.
fn enabled(names: &NameList) -> Option<Names<'static>>
    ensures { result ≡ (if has_name REV2 names.now then Some (REV2 ∷ []) else None) }
{
    if names.names().contains(b"IMAP4rev2") {
        rev2()
    } else {
        None
    }
}

/// IMAP4rev2 alone.
fn rev2() -> Option<Names<'static>>
    ensures { result ≡ Some (REV2 ∷ []) }
{
    match Atom::read(b"IMAP4rev2") {
        Some(atom) => Some(Names::one(&atom)),
        None => unreachable!(),
    }
}
