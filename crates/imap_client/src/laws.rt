//! Laws of what calls do, each shown by a function that does nothing.

ghost use Rattle.imap_client.specs.Laws.{StoredIsFlagged, SweptIsDeleted, SweptIsExpunged};

/// What `FarBox::add_flags` and `remove_flags` do to a mailbox is the operation that the near mailbox shares.
pub fn stored_is_flagged()
    ensures { StoredIsFlagged }
{}

/// `FarBox::expunge` removes those of the named messages that are marked as deleted, and no other.
pub fn swept_is_deleted()
    ensures { SweptIsDeleted }
{}

/// Where all of the named messages are marked as deleted, `FarBox::expunge` is the operation that the near mailbox shares.
pub fn swept_is_expunged()
    ensures { SweptIsExpunged }
{}
