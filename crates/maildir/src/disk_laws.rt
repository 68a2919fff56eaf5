//! The laws of a record of calls on the folder of a mailbox, each shown by a function that does nothing.

ghost use Rattle.std.specs.Prelude.{◌≡◌, ℕ, List, ◌∷◌, None, Some, false};
ghost use Rattle.maildir.specs.declared.folder.Place.{Place};
ghost use Rattle.maildir.specs.DiskEvents.{DiskEvent, DiskWorld, IsHonest, standing_after};
ghost use Rattle.maildir.specs.DiskExamples.{missing, read_of};
ghost use Rattle.maildir.specs.Folders.{bytes_at};

/// A call that fails is no lie: it may have done what it was to do, or nothing of it, or a part.
pub fn failures_are_honest()
    ensures { (world : DiskWorld) (events : List DiskEvent) (event : DiskEvent) → event.call.is_ok ≡ false → IsHonest world events
        → IsHonest world (event ∷ events) }
{}

/// A read that gives other bytes than those of the file is a lie.
pub fn other_bytes_are_a_lie()
    ensures { (world : DiskWorld) (events : List DiskEvent) (place : Place) (name written given : List ℕ)
        → bytes_at place name (standing_after world events).stored ≡ Some written → IsHonest world (read_of place name given ∷ events)
        → given ≡ written }
{}

/// So is an answer that a file which is there is missing.
pub fn there_is_not_missing()
    ensures { (world : DiskWorld) (events : List DiskEvent) (place : Place) (name written : List ℕ)
        → bytes_at place name (standing_after world events).stored ≡ Some written → IsHonest world (missing place name ∷ events) → ⊥ }
{}
