//! The laws of a record of calls on files, each shown by a function that does nothing.

ghost use Rattle.std.specs.Prelude.{◌≡◌, ℕ, List, ◌∷◌, Some, false};
ghost use Rattle.device.specs.FileEvents.{FileEvent, World, IsHonest, files_after};
ghost use Rattle.device.specs.FileExamples.{began, name, read_of, torn, torn_world};

/// A call that fails is no lie: it may have done what it was to do, or nothing of it, or a part.
pub fn failures_are_honest()
    ensures { (world : World) (events : List FileEvent) (event : FileEvent) → event.call.is_ok ≡ false → IsHonest world events
        → IsHonest world (event ∷ events) }
{}

/// A file system may be honest while a call fails: three bytes were to be added, two were, and two are read.
pub fn a_torn_file_may_be_honest()
    ensures honest { IsHonest torn_world torn }
    ensures torn { files_after torn_world torn name ≡ Some began }
{}

/// A read that gives other bytes than those that the file holds is a lie.
pub fn other_bytes_are_a_lie()
    ensures { (world : World) (events : List FileEvent) (of written given : List ℕ) → files_after world events of ≡ Some written
        → IsHonest world (read_of of given ∷ events) → given ≡ written }
{}
