//! The laws of the files of a book, each shown by a function that does nothing.

ghost use Rattle.std.specs.Prelude.{◌≡◌, ◌⊎◌, List};
ghost use Rattle.rules.specs.declared.entry.Entry.{Entry};
ghost use Rattle.rules.specs.declared.plan.Plan.{Plan};
ghost use Rattle.rules.specs.declared.state.SyncState.{SyncState};
ghost use Rattle.rules.specs.PlanEntries.{PlanAgrees};
ghost use Rattle.book.specs.declared.book.Pending.{Pending};
ghost use Rattle.book.specs.Agreement.{Agrees};
ghost use Rattle.book.specs.BookLogs.{fresh};
ghost use Rattle.book.specs.Books.{Holds, ReportsOpen};
ghost use Rattle.book.specs.Shelves.{Files};

use sync_state::fault::BookFault;

/// Two files hold one book at most: a book that is opened anew is the one that was left.
pub fn books_by_their_files()
    ensures { (files : Files) (s t : SyncState) (p q : Pending) → Holds files s p → Holds files t q → (s ≡ t) × (p ≡ q) }
{}

/// Files that hold a book are refused by no line: a book is opened anew, unless the shelf stops or memory runs out.
pub fn held_books_open()
    ensures { (files : Files) (s : SyncState) (p : Pending) (fault : BookFault) → Holds files s p → ReportsOpen files fault
        → (fault ≡ BookFault.Stopped) ⊎ (fault ≡ BookFault.NoMemory) }
{}

/// A plan that agrees with the entries, as the clause `agrees` of the planner says, agrees as `begin` asks for it.
pub fn plans_can_be_begun()
    ensures { (entries : List Entry) (plan : Plan) → PlanAgrees entries plan → Agrees entries (fresh plan) }
{}
