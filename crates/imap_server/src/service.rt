//! What a server has: the account, its mailboxes, and the condition of its connection.

ghost use Rattle.std.specs.Prelude.{◌≡◌, position};
ghost use Rattle.imap_session.specs.Mailboxes.{is_inbox, same_name};
ghost use Rattle.imap_session.specs.Boxes.{all_of};
ghost use Rattle.imap_server.specs.Places.{Place};

use crate::condition::ConnectionState;
use mailcore::keywords::Keywords;
use mailcore::mailbox::StoredMailbox;
use std::alloc::Global;
use std::marker::Model;

/// A server but for what it reads; clauses see it as imap_session does.
#[derive(Drop)]
pub(crate) struct Service {
    pub(crate) alloc: Global,
    pub(crate) user: Vec<u8>,
    pub(crate) password: Vec<u8>,
    pub(crate) mailboxes: Vec<StoredMailbox>,
    // the letters by which flags are seen here
    pub(crate) keywords: Keywords,
    pub(crate) condition: ConnectionState,
    // messages have arrived in the mailbox that is selected, of which nothing was said yet
    pub(crate) has_news: bool,
}

impl Model for Service {
    ghost use Rattle.imap_session.specs.Servers.{Server};
    ghost use Rattle.imap_session.specs.Boxes.{all_of, AreServed};
    ghost use Rattle.imap_server.specs.Services.{condition_of};

    ghost Value = { Server };

    ghost view = { λ s. record { user = s.user.items; password = s.password.items; mailboxes = all_of s.mailboxes.items; keywords = s.keywords; condition = condition_of s.condition; has_news = s.has_news } };

    ghost invariant = { λ s. AreServed (all_of s.mailboxes.items) };
}

impl Service {
    ghost use Rattle.std.specs.Prelude.{◌≡◌, ◌<◌, None, Some, length, slice_get};
    ghost use Rattle.mailcore.specs.KeywordNames.{IsMap};
    ghost use Rattle.imap_session.specs.Servers.{is_before_login, is_logged_in, is_over};
    ghost use Rattle.imap_session.specs.Arrivals.{is_selected};
    ghost use Rattle.imap_session.specs.Boxes.{far_of, AreServed, IsServed};
    ghost use Rattle.imap_server.specs.Services.{condition_of};
    ghost use Rattle.imap_server.specs.Places.{Place};
    ghost use Rattle.imap_server.specs.Selection.{SelectedPlace};

    /// Its mailboxes keep to the limits, whatever was done.
    pub(crate) fn is_served(&self)
        ensures { AreServed self.now.mailboxes }
    {
        let _mailboxes = &self.mailboxes;
    }

    /// Its keywords are a map, whatever was done.
    pub(crate) fn has_map(&self)
        ensures { IsMap self.now.keywords }
    {
        let _keywords = self.keywords.as_slice();
    }

    /// The place of the mailbox of this name.
    pub(crate) fn place_of(&self, name: &[u8]) -> Option<usize>
        ensures { Place name.now self.now.mailboxes result }
    {
        place_of(&self.mailboxes, name)
    }

    /// The place of the mailbox that is selected.
    pub(crate) fn selected_place(&self) -> Option<usize>
        ensures { SelectedPlace self.now result }
    {
        match &self.condition {
            ConnectionState::Selected(name) => self.place_of(name.as_slice()),
            _ => None,
        }
    }

    /// Whether the mailbox of this name is selected.
    pub(crate) fn is_selected(&self, name: &[u8]) -> bool
        ensures { result ≡ is_selected name.now self.now.condition }
    {
        match &self.condition {
            ConnectionState::Selected(at) => same_name(at.as_slice(), name),
            _ => false,
        }
    }

    /// The mailbox at this place.
    pub(crate) fn mailbox(&self, place: usize) -> &StoredMailbox
        requires { place < length self.now.mailboxes }
        ensures there { slice_get self.now.mailboxes place ≡ Some (far_of result.now) }
        ensures served { IsServed (far_of result.now) }
    {
        &self.mailboxes[place]
    }

    /// The connection is in this condition from now on.
    pub(crate) fn enter(&mut self, condition: ConnectionState)
        ensures { self.new ≡ record self.old { condition = condition_of condition } }
    {
        self.condition = condition;
    }

    /// Sets whether there is news to report.
    pub(crate) fn set_news(&mut self, has_news: bool)
        ensures { self.new ≡ record self.old { has_news = has_news } }
    {
        self.has_news = has_news;
    }

    /// Whether nobody is logged in yet.
    pub(crate) fn is_before_login(&self) -> bool
        ensures { result ≡ is_before_login self.now.condition }
    {
        matches!(self.condition, ConnectionState::NotAuthenticated)
    }

    /// Whether somebody is logged in.
    pub(crate) fn is_logged_in(&self) -> bool
        ensures { result ≡ is_logged_in self.now.condition }
    {
        matches!(
            self.condition,
            ConnectionState::Authenticated | ConnectionState::Selected(_)
        )
    }

    /// Whether nothing more is read.
    pub(crate) fn is_over(&self) -> bool
        ensures { result ≡ is_over self.now.condition }
    {
        matches!(self.condition, ConnectionState::LoggedOut)
    }
}

/// The place of the mailbox of this name.
fn place_of(mailboxes: &[StoredMailbox], name: &[u8]) -> Option<usize>
    ensures { Place name.now (all_of mailboxes.now) result }
{
    first_named(mailboxes, name)
}

/// The place of the first mailbox of this name.
fn first_named(mailboxes: &[StoredMailbox], name: &[u8]) -> Option<usize>
    ensures { result ≡ position (λ m. same_name m.name name.now) mailboxes.now }
{
    mailboxes
        .iter()
        .position(|m| same_name(m.name.as_str().as_bytes(), name))
}

/// Whether two names are those of one mailbox: they compare by bytes, INBOX without case.
pub(crate) fn same_name(a: &[u8], b: &[u8]) -> bool
    ensures { result ≡ same_name a.now b.now }
{
    a == b || (is_inbox(a) && is_inbox(b))
}

fn is_inbox(name: &[u8]) -> bool
    ensures { result ≡ is_inbox name.now }
{
    name.eq_ignore_ascii_case(b"INBOX")
}
