//! Laws of this crate's definitions, each shown by a function that does nothing.
ghost use Rattle.mailcore.specs.Laws as law;

/// The content of a content is that content.
pub fn content_of_content()
    ensures { law.ContentOfContent }
{}

/// However a store ends the lines of a content, its content is the same.
pub fn content_in_store()
    ensures { law.ContentInStore }
{}

/// The content of a copy is its source's.
pub fn content_of_copy()
    ensures { law.ContentOfCopy }
{}

/// The mark of a copy is the one that it was given.
pub fn mark_of_copy()
    ensures { law.MarkOfCopy }
{}

/// An operation on a mailbox keeps that its UIDs rise and are below the next one.
pub fn operations_keep_stores()
    ensures added { law.AddedKeepsStores }
    ensures set_aside { law.SetAsideKeepsStores }
    ensures flagged { law.FlaggedKeepsStores }
    ensures expunged { law.ExpungedKeepsStores }
{}
