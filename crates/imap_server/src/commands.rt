//! The answer to any command.

use crate::service::Service;
use imap_commands::command::{Command, Request};
use std::alloc::AllocError;

impl Service {
    ghost use Rattle.std.specs.Prelude.{◌≡◌, OnOk, OnErr};
    ghost use Rattle.imap_session.specs.Steps.{Step};
    ghost use Rattle.imap_server.specs.Writing.{AnsweredBy};

    /// Does what the command asks for, and writes the replies. Where memory runs out, nothing is done, and a part may be
    /// written.
    pub(crate) fn answer(&mut self, command: Command, out: &mut Vec<u8>) -> Result<(), AllocError>
        ensures ok { OnOk result (AnsweredBy (Step self.old command) out.old.items out.new.items self.new) }
        ensures err { OnErr result (self.new ≡ self.old) }
    {
        let Command { tag, request } = command;
        match request {
            Request::Capability => self.capability(tag, out),
            Request::Noop => self.noop(tag, out),
            Request::Logout => self.logout(tag, out),
            Request::Login(user, password) => self.login(tag, &user, &password, out),
            Request::Enable(names) => self.enable(tag, &names, out),
            Request::List(pattern) => self.list(tag, &pattern, out),
            Request::Create(name) => self.create(tag, &name, out),
            Request::Select(name) => self.select(tag, name, out),
            Request::Append(name, flags, message) => self.append(tag, &name, &flags, message, out),
            Request::Fetch(set, items) => self.fetch(tag, &set, items, out),
            Request::Store(set, mode, flags) => self.store(tag, &set, mode, &flags, out),
            Request::Expunge(set) => self.expunge(tag, &set, out),
        }
    }
}
