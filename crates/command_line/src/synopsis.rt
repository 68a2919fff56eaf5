//! The synopsis, as `clap` reads it.

ghost use Rattle.std.specs.Prelude.{◌≡◌, IfOk, false, map};
ghost use Rattle.clap.specs.Words.{app_of, rule_of};
ghost use Rattle.command_line.specs.SyncFlags.{sync_flags};
ghost use Rattle.command_line.specs.Synopsis.{before_flags, channel_rule, file_rule, flag_rule, letter_rule, sync_rule, synopsis, with_rules};

use crate::sync_flag::SyncFlag;
use clap::{Arg, ArgAction, Command};
use std::alloc::{AllocError, Global};

const ABOUT: &str = "Synchronises mailboxes of IMAP servers and Maildir folders.";

const AFTER_HELP: &str = "\
The options --pull to --noop are the words of Sync in the configuration. If one or
more are given, they replace the Sync of every channel.

Exit status: 0, 1 after an error, 2 for a wrong command line or an unknown channel.";

/// A flag of one letter.
fn letter_flag<'a>(alloc: Global, id: &'a str, letter: char, help: &'a str) -> Arg<'a>
    ensures rule { rule_of result ≡ letter_rule id.now letter }
    ensures local { result.global ≡ false }
{
    Arg::new(alloc, id)
        .short(letter)
        .action(ArgAction::SetTrue)
        .help(help)
}

/// A flag of two hyphens and its name.
fn long_flag<'a>(alloc: Global, name: &'a str, help: &'a str) -> Arg<'a>
    ensures rule { rule_of result ≡ flag_rule name.now }
    ensures local { result.global ≡ false }
{
    Arg::new(alloc, name)
        .long(name)
        .action(ArgAction::SetTrue)
        .help(help)
}

fn sync_flag<'a>(alloc: Global, flag: SyncFlag) -> Arg<'a>
    ensures rule { rule_of result ≡ sync_rule flag }
    ensures local { result.global ≡ false }
{
    let name: &'a str = flag.name();
    let help: &'a str = flag.help();
    long_flag(alloc, name, help)
}

fn file_option<'a>(alloc: Global) -> Arg<'a>
    ensures rule { rule_of result ≡ file_rule }
    ensures local { result.global ≡ false }
{
    Arg::new(alloc, "file")
        .short('c')
        .value_name("FILE")
        .help("Read the configuration from FILE, not from ~/.mbsyncrc")
}

fn channel_names<'a>(alloc: Global) -> Arg<'a>
    ensures rule { rule_of result ≡ channel_rule }
    ensures local { result.global ≡ false }
{
    Arg::new(alloc, "channel")
        .value_name("CHANNEL")
        .action(ArgAction::Append)
        .help("The name of a channel or of a group of channels")
}

/// The command `mbsync`, whatever its program is called by, with what stands before the flags of Sync.
fn command_before_flags<'a>(alloc: Global) -> Result<Command<'a>, AllocError>
    ensures { IfOk result (λ command. app_of command ≡ before_flags) }
{
    Command::new(alloc, "mbsync")
        .about(ABOUT)
        .after_help(AFTER_HELP)
        .bin_name("mbsync")?
        .arg(file_option(alloc))?
        .arg(letter_flag(alloc, "all", 'a', "All channels; names are ignored"))?
        .arg(letter_flag(
            alloc,
            "list",
            'l',
            "Only list the mailboxes, as CHANNEL:BOX",
        ))
}

/// The command with the flags of Sync after what it has.
fn with_sync_flags<'a>(alloc: Global, begun: Command<'a>) -> Result<Command<'a>, AllocError>
    ensures { IfOk result (λ command. app_of command ≡ with_rules (app_of begun.entry) (map sync_rule sync_flags)) }
{
    let mut command = begun;
    for flag in SyncFlag::ALL {
        command = command.arg(sync_flag(alloc, flag))?;
    }
    Ok(command)
}

/// The command `mbsync`.
#[tactic(auto, unfolding(crate::specs::Synopsis::synopsis))]
pub(crate) fn command<'a>(alloc: Global) -> Result<Command<'a>, AllocError>
    ensures { IfOk result (λ command. app_of command ≡ synopsis) }
{
    let begun = command_before_flags(alloc)?;
    with_sync_flags(alloc, begun)?
        .arg(long_flag(
            alloc,
            "expunge",
            "Expunge Both: remove deleted messages on both sides",
        ))?
        .arg(channel_names(alloc))
}
