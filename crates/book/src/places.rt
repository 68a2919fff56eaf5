//! Look-ups by halving, in entries that rise by their places.

ghost use Rattle.std.specs.Prelude.{◌≡◌};
ghost use Rattle.rules.specs.Entries.{ArePairs};
ghost use Rattle.sync_state.specs.JournalText.{note_place};
ghost use Rattle.sync_state.specs.Places.{place_at};
ghost use Rattle.book.specs.PlacedLists.{entry_place, Stands};

use mailcore::uid::Uid;
use rules::entry::Entry;
use rules::plan::Note;
use sync_state::place::StepPlace;

/// The entry at the place of these UIDs, of entries in order.
pub(crate) fn entry_at(entries: &[Entry], far: Option<Uid>, near: Option<Uid>) -> Option<Entry>
    requires { ArePairs entries.now }
    ensures { Stands entry_place (note_place (Note.Drop far near)) entries.now result }
{
    let place = StepPlace::of_note(&Note::Drop { far, near });
    let at = entries.partition_point(|entry| place_of(entry).is_below(place));
    match entries.get(at) {
        Some(entry) => Some(*entry),
        None => None,
    }
}

/// The place of an entry: that of a note which drops it.
pub(crate) fn place_of(entry: &Entry) -> StepPlace
    ensures { place_at result ≡ entry_place entry.now }
{
    StepPlace::of_note(&Note::Drop {
        far: entry.far,
        near: entry.near,
    })
}
