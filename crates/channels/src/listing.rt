//! The mailboxes of channels as `-l` prints them.

ghost use Rattle.std.specs.Prelude.{◌≡◌, [], false, IfOk, OnOk, string_bytes};
ghost use Rattle.std.specs.Io.KnownBytes.{Appends};
ghost use Rattle.std.specs.List.{flat_map};
ghost use Rattle.channels.specs.Asked.{joined_of};
ghost use Rattle.channels.specs.declared.verdict.Verdict.TheVariants.{Clean};
ghost use Rattle.channels.specs.Asks.{Asks, Lists, ListsBoth};
ghost use Rattle.channels.specs.Courses.{Goes, IsListAsked, IsListedAlone, IsListedAsked, SoFar, listing_verdict};
ghost use Rattle.channels.specs.Founds.{IsPair};
ghost use Rattle.channels.specs.Lendings.{LendsNone};
ghost use Rattle.channels.specs.Lines.{box_line};
ghost use Rattle.channels.specs.Streams.{Extends, IsQuiet, Notes};

use crate::channel_box::ChannelStores;
use crate::finding::Found;
use crate::run_stores::RunStores;
use crate::store_fault::ListFault;
use crate::stores::BoxLists;
use crate::verdict::Verdict;
use config::config::{Boxes, Channel};
use config_words::patterns::Patterns;
use mailcore::mailbox_name::MailboxName;
use std::alloc::Global;
use std::io;
use std::io::Write;

/// Prints a channel's mailboxes. A channel without patterns opens no store for that.
#[tactic(auto, using(crate::proofs::StreamLemmas::stream_steps, crate::proofs::StreamLemmas::quiet_steps))]
pub(crate) fn list_channel<S: BoxLists, O: Write, E: Write>(
    alloc: Global,
    of: ChannelStores<'_>,
    stores: &mut RunStores<'_, S, O, E>,
) -> io::Result<Verdict>
    requires going { stores.old.write_failed ≡ false }
    ensures unopened { IsPair of.entry.channel.now.boxes → stores.new.stores ≡ stores.old.stores }
    ensures out { stores.new.out.ghost_name ≡ stores.old.out.ghost_name }
    ensures err { stores.new.err.ghost_name ≡ stores.old.err.ghost_name }
    ensures quiet { IfOk result (IsQuiet (E.contents stores.old.err.now) (E.contents stores.new.err.now)) }
    ensures whole { OnOk result (Extends (O.contents stores.old.out.now) (O.contents stores.new.out.now)) }
    ensures failed { Notes false stores.new.write_failed result }
    ensures stores { stores.new.stores.ghost_name ≡ stores.old.stores.ghost_name }
    ensures asks { IfOk result (λ verdict. verdict ≡ Clean
        → Lists S.noted (joined_of of.entry) of.entry.channel.now.boxes (S.asked stores.old.stores.now) (S.asked stores.new.stores.now)) }
    ensures asked { Goes S.noted (S.asked stores.old.stores.now) (S.asked stores.new.stores.now)
        (SoFar result (IsListAsked (joined_of of.entry) of.entry.channel.now.boxes)) }
    ensures lent { LendsNone S.honest S.lent stores.old.stores.now stores.new.stores.now }
{
    match &of.channel.boxes {
        Boxes::Pair { far, .. } => {
            stores.print_box(of.channel, far)?;
            Ok(Verdict::Clean)
        }
        Boxes::Matching(patterns) => match matching(alloc, of, patterns, stores) {
            Ok(boxes) => list_boxes(stores, of, &boxes),
            Err(fault) => stores.report_unlisted(of, &fault),
        },
    }
}

/// The mailboxes of a channel that its patterns choose.
fn matching<S: BoxLists, O: Write, E: Write>(
    alloc: Global,
    of: ChannelStores<'_>,
    patterns: &Patterns,
    stores: &mut RunStores<'_, S, O, E>,
) -> Result<Vec<MailboxName>, ListFault>
    requires going { stores.old.write_failed ≡ false }
    ensures others { stores.new ≡ record stores.old { stores = stores.new.stores } }
    ensures stores { stores.new.stores.ghost_name ≡ stores.old.stores.ghost_name }
    ensures asks { OnOk result (ListsBoth S.noted (joined_of of.entry) (S.asked stores.old.stores.now) (S.asked stores.new.stores.now)) }
    ensures listed { Goes S.noted (S.asked stores.old.stores.now) (S.asked stores.new.stores.now)
        (IsListedAsked (joined_of of.entry) IsListedAlone (listing_verdict result)) }
    ensures lent { LendsNone S.honest S.lent stores.old.stores.now stores.new.stores.now }
{
    let found = Found::of(of, stores)?;
    found.matching(alloc, patterns)
}

/// Prints these mailboxes of a channel, after what its stores report beside.
#[tactic(auto, using(crate::proofs::StreamLemmas::stream_steps, crate::proofs::StreamLemmas::quiet_steps))]
fn list_boxes<S: BoxLists, O: Write, E: Write>(
    stores: &mut RunStores<'_, S, O, E>,
    of: ChannelStores<'_>,
    boxes: &[MailboxName],
) -> io::Result<Verdict>
    requires going { stores.old.write_failed ≡ false }
    ensures out { stores.new.out.ghost_name ≡ stores.old.out.ghost_name }
    ensures err { stores.new.err.ghost_name ≡ stores.old.err.ghost_name }
    ensures quiet { IfOk result (IsQuiet (E.contents stores.old.err.now) (E.contents stores.new.err.now)) }
    ensures whole { OnOk result (Extends (O.contents stores.old.out.now) (O.contents stores.new.out.now)) }
    ensures failed { Notes false stores.new.write_failed result }
    ensures asks { Asks S.noted S.asked stores.old.stores stores.new.stores [] }
    ensures clean { IfOk result (λ verdict. verdict ≡ Clean) }
    ensures lent { LendsNone S.honest S.lent stores.old.stores.now stores.new.stores.now }
{
    stores.report_notices(of)?;
    print_boxes(stores, of.channel, boxes)?;
    Ok(Verdict::Clean)
}

#[tactic(auto, using(crate::proofs::StreamLemmas::stream_steps, crate::proofs::StreamLemmas::quiet_steps))]
fn print_boxes<S: BoxLists, O: Write, E: Write>(
    stores: &mut RunStores<'_, S, O, E>,
    channel: &Channel,
    boxes: &[MailboxName],
) -> io::Result<()>
    requires going { stores.old.write_failed ≡ false }
    ensures out { stores.new.out.ghost_name ≡ stores.old.out.ghost_name }
    ensures err { stores.new.err ≡ stores.old.err }
    ensures text { OnOk result (Appends (O.contents stores.old.out.now) (O.contents stores.new.out.now)
        (flat_map (λ far. box_line (string_bytes channel.now.name) far) boxes.now)) }
    ensures whole { OnOk result (Extends (O.contents stores.old.out.now) (O.contents stores.new.out.now)) }
    ensures failed { Notes false stores.new.write_failed result }
    ensures stores { stores.new.stores ≡ stores.old.stores }
{
    for far in boxes {
        stores.print_box(channel, far)?;
    }
    Ok(())
}
