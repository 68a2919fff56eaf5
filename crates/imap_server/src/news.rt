//! Messages that come to a mailbox from elsewhere, and what is reported of them (RFC 9051, section 7.4.1).

use crate::mailbox_commands::count_of;
use crate::service::Service;
use crate::writing::say;
use imap_commands::command::Command;
use imap_replies::reply::Reply;
use mailcore::flags::Flags;
use mailcore::uid::Uid;
use std::alloc::AllocError;
use wire_strings::octets::LentOctets;

impl Service {
    ghost use Rattle.std.specs.Prelude.{◌≡◌, ◌||◌, OnOk, OnErr, IfOk};
    ghost use Rattle.imap_session.specs.Servers.{news, reported};
    ghost use Rattle.imap_session.specs.Steps.{Step};
    ghost use Rattle.imap_session.specs.Arrivals.{is_selected, Arrived};
    ghost use Rattle.imap_server.specs.Writing.{Wrote, AnsweredBy};

    /// Reports how many messages the selected mailbox has, if some have arrived since that was reported.
    pub(crate) fn say_news(&self, out: &mut Vec<u8>) -> Result<(), AllocError>
        ensures { OnOk result (Wrote (news self.now) out.old.items out.new.items) }
    {
        if !self.has_news {
            return Ok(());
        }
        match self.selected_place() {
            Some(place) => say(&Reply::Exists(count_of(self.mailbox(place))), out),
            None => Ok(()),
        }
    }

    /// Does what the command asks for, once the news was reported. If memory runs out, the news counts as not reported.
    pub(crate) fn answer_reported(
        &mut self,
        command: Command,
        out: &mut Vec<u8>,
    ) -> Result<(), AllocError>
        ensures ok { OnOk result (AnsweredBy (Step (reported self.old) command) out.old.items out.new.items self.new) }
        ensures err { OnErr result (self.new ≡ self.old) }
    {
        let had_news = self.has_news;
        self.set_news(false);
        match self.answer(command, out) {
            Ok(()) => Ok(()),
            Err(AllocError) => {
                self.set_news(had_news);
                Err(AllocError)
            }
        }
    }

    /// Adds a message that comes from elsewhere to the mailbox of this name, under its next UID, with those of the flags that have a
    /// name.
    pub(crate) fn arrive(
        &mut self,
        name: &[u8],
        flags: Flags,
        message: &[u8],
    ) -> Result<Option<Uid>, AllocError>
        ensures ok { IfOk result (λ uid. Arrived name.now flags message.now uid self.old self.new) }
        ensures err { OnErr result (self.new ≡ self.old) }
    {
        let Some(place) = self.place_of(name) else {
            return Ok(None);
        };
        if LentOctets::read(message).is_none() {
            return Ok(None);
        }
        match Uid::new(self.mailbox(place).next) {
            Some(uid) => {
                let mut bytes = Vec::new(self.alloc);
                bytes.extend_from_slice(message)?;
                let flags = flags.kept(&self.keywords);
                self.add(place, uid, flags, bytes)?;
                self.note(name);
                Ok(Some(uid))
            }
            None => Ok(None),
        }
    }

    /// There is news to report, if the mailbox of this name is selected.
    fn note(&mut self, name: &[u8])
        ensures { self.new ≡ record self.old { has_news = is_selected name.now self.old.condition || self.old.has_news } }
    {
        if self.is_selected(name) {
            self.set_news(true);
        }
    }
}
