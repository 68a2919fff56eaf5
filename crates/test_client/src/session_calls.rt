//! Calls of a session.

ghost use Rattle.std.specs.Prelude.{◌≡◌, IsTrue};
ghost use Rattle.imap_client.specs.Requests.{IsWord};

use crate::answers::{print_done, print_name, print_not_made, report_fault};
use imap_client::session::Session;
use imap_link::link::Link;
use mailcore::mailbox_name::MailboxName;
use test_scripts::reported::Reported;
use test_scripts::words::Words;
use wire_strings::line_text::all_text;

/// Makes a call of a session, and adds its answer.
pub fn ask_session<L: Link>(
    session: &mut Session<L>,
    word: &str,
    line: &mut Words<'_>,
    reported: &mut Reported,
) {
    match word {
        "reconnect" => print_done(reported, session.reconnect()),
        "login" => login(session, line, reported),
        "create" => create(session, line, reported),
        "names" => match session.list() {
            Ok(names) => print_names(reported, &names),
            Err(fault) => report_fault(reported, fault),
        },
        _ => print_not_made(line, reported),
    }
}

fn login<L: Link>(session: &mut Session<L>, line: &mut Words<'_>, reported: &mut Reported) {
    let user = line.word().as_bytes();
    let password = line.text().as_bytes();
    if is_word(user) && is_word(password) {
        print_done(reported, session.login(user, password));
    } else {
        line.refuse();
    }
}

fn create<L: Link>(session: &mut Session<L>, line: &mut Words<'_>, reported: &mut Reported) {
    let name = line.text().as_bytes();
    if is_word(name) {
        print_done(reported, session.create(name));
    } else {
        line.refuse();
    }
}

/// The names of mailboxes, each between quotes, or `no mailbox`.
fn print_names(reported: &mut Reported, names: &[MailboxName]) {
    if names.is_empty() {
        reported.text("no mailbox");
    }
    for (place, name) in names.iter().enumerate() {
        print_name(reported, place, name.as_str());
    }
}

/// Whether a session takes this as a user, a password or the name of a mailbox.
pub fn is_word(word: &[u8]) -> bool
    ensures { IsTrue result → IsWord word.now }
{
    word.len() <= 1024 && all_text(word)
}
