//! Reading of commands.

ghost use Rattle.std.specs.Prelude.{◌≡◌};
ghost use Rattle.wire_reader.specs.declared.side.Speaker.TheVariants.{Commands};
ghost use Rattle.wire_reader.specs.Given.{GivesOr};
ghost use Rattle.wire_reader.specs.Answers.{Answers, TakesEach, WaitsForMore, NoneBeginsAnother};
ghost use Rattle.imap_commands.specs.Commands.{Spelled, command_at};

use crate::command::Command;
use crate::requests::read_request;
use crate::verb::read_verb;
use std::alloc::Global;
use wire_reader::answer::{Read, WireFault, answered, kept, within};
use wire_reader::punctuation::byte;
use wire_reader::stop::ReadError;
use wire_tokens::tag::read_tag;

/// Reads the command at the front of the bytes, of which at most 65536 stand outside literals.
///
/// `Syntax`: the byte there goes on with no command. `LineTooLong`, `LiteralTooLong`: a limit is passed. `NoMemory`: a
/// growth was refused, and nothing is known of the bytes.
pub fn read_command(alloc: Global, bytes: &[u8]) -> Result<Read<Command>, WireFault>
    // What each answer says.
    ensures answers { Answers Commands (λ c. c) Spelled bytes.now result }
    // A spelling at the front, with room for it, is the answer.
    ensures takes { TakesEach (λ c. c) Spelled bytes.now result }
    // Bytes that begin a longer spelling, with room for them, ask for more.
    ensures waits { WaitsForMore Spelled bytes.now result }
{
    match kept(answered(command(alloc, bytes), bytes.len()), bytes) {
        Ok(answer) => answer,
        Err(end) => within(answered(command(alloc, &bytes[..end]), end), end),
    }
}

/// A whole command, and the bytes after it.
#[tactic(auto, unfolding(crate::specs::Commands::command_at))]
fn command(alloc: Global, bytes: &[u8]) -> Result<(Command, &[u8]), ReadError>
    ensures { GivesOr (λ r. (r.0, r.1.now)) result (command_at bytes.now) }
{
    // No `?`: the prover has no rule for it where a `Copy` type with a model stands beside a slice.
    let (tag, rest) = match read_tag(bytes) {
        Ok(read) => read,
        Err(stop) => return Err(ReadError::At(stop)),
    };
    let rest = byte(b' ', rest)?;
    let (verb, rest) = read_verb(rest)?;
    let (request, rest) = read_request(alloc, verb, rest)?;
    Ok((Command { tag, request }, rest))
}

/// No spelling of a command begins another.
pub fn none_begins_another()
    ensures { NoneBeginsAnother Spelled }
{}
