//! How a configuration is read from its text (docs/FORMATS.md, "Configuration").

ghost use Rattle.std.specs.Prelude.{◌≡◌, ◌≢◌, [], length, IfErr, IfOk, MatchResult, OnOk};
ghost use Rattle.config.specs.Accepted.{HasUnmixed, IsWhole};
ghost use Rattle.config.specs.Configurations.{Means, text_meaning};
ghost use Rattle.config.specs.Lines.{IsUpTo};
ghost use Rattle.config.specs.Outlines.{IsReportedOf};
ghost use Rattle.config.specs.Standing.{faults_again};
ghost use Rattle.texts.specs.Lines.{lines_of};

use crate::config::Config;
use crate::reading::Reading;
use config_words::fault::{ConfigFault, FaultKind};
use std::alloc::Global;
use texts::lines::Lines;

/// The configuration that a text gives. The fault names the first faulty line and what is wrong with it, and of several
/// faults of that line the one with the lowest number. `NoMemory` comes in place of any answer where memory ran out.
///
/// A line that begins a section under a name that is taken is never skipped, nor is one that gives a letter or the name of
/// a keyword that a line above gives in the same place: it is reported as `DefinedTwice` or as `KeywordGiven`, unless a fault that
/// comes before it is reported. A configuration has just the stores, the channels and the groups that the lines say, and each
/// group just its channels; no channel that names a mailbox has patterns; and no line is skipped but empty ones and comments.
pub fn read_config(alloc: Global, text: &[u8]) -> Result<Config, ConfigFault>
    ensures lines { IfErr result (IsUpTo (length (lines_of text.now))) }
    ensures again { MatchResult result (λ config. faults_again text.now ≡ [])
        (λ fault. fault.kind ≢ FaultKind.NoMemory → IsReportedOf (faults_again text.now) fault) }
    ensures means { IfOk result (Means (text_meaning text.now)) }
    ensures whole { OnOk result (IsWhole text.now) }
    ensures unmixed { OnOk result (HasUnmixed text.now) }
{
    let mut reading = Reading::new(alloc);
    let mut lines = Lines::new(text);
    while let Some(line) = lines.next_or_last() {
        match reading.read(line) {
            Ok(()) => {}
            Err(_) => return Err(no_memory(line.number)),
        }
    }
    match reading.finish() {
        Ok(reported) => reported,
        Err(_) => Err(no_memory(lines.taken)),
    }
}

/// Want of memory at a line.
fn no_memory(line: usize) -> ConfigFault
    ensures { result ≡ record { line = line; kind = FaultKind.NoMemory } }
{
    let kind = FaultKind::NoMemory;
    ConfigFault { line, kind }
}
