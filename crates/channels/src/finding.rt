//! Which mailboxes a channel has, and on which sides they are there.

ghost use Rattle.std.specs.Prelude.{◌≡◌, ℕ, Bool, List, false, IfOk, OnErr};
ghost use Rattle.std.specs.List.{fold};
ghost use Rattle.channels.specs.Asked.{joined_of};
ghost use Rattle.channels.specs.Asks.{lists_asked};
ghost use Rattle.channels.specs.Courses.{Goes, IsUnlisted};
ghost use Rattle.channels.specs.Founds.{absent_in};
ghost use Rattle.channels.specs.Lendings.{LendsNone};
ghost use Rattle.channels.specs.Boxes.{Rises, Reports, boxes_among};

use crate::boxes::{boxes_among, stands_in};
use crate::channel_box::ChannelStores;
use crate::run_stores::RunStores;
use crate::store_fault::ListFault;
use crate::stores::BoxLists;
use config_words::patterns::Patterns;
use mailcore::mailbox_name::MailboxName;
use rules::options::Sides;
use std::alloc::{AllocError, Global};
use std::io::Write;

/// The mailboxes of both stores of a channel, in the order of their bytes.
#[derive(Drop)]
pub(crate) struct Found {
    pub(crate) far: Vec<MailboxName>,
    pub(crate) near: Vec<MailboxName>,
}

impl Found {
    /// Lists the mailboxes of both stores, the far one first.
    pub(crate) fn of<S: BoxLists, O: Write, E: Write>(
        of: ChannelStores<'_>,
        stores: &mut RunStores<'_, S, O, E>,
    ) -> Result<Self, ListFault>
        requires going { stores.old.write_failed ≡ false }
        ensures rising { IfOk result (λ found. Rises found.far.items × Rises found.near.items) }
        ensures others { stores.new ≡ record stores.old { stores = stores.new.stores } }
        ensures stores { stores.new.stores.ghost_name ≡ stores.old.stores.ghost_name }
        ensures asks { IfOk result (λ found. S.asked stores.new.stores.now
            ≡ fold S.noted (S.asked stores.old.stores.now) (lists_asked (joined_of of.entry) found.far.items found.near.items)) }
        ensures lent { LendsNone S.honest S.lent stores.old.stores.now stores.new.stores.now }
        ensures unlisted { OnErr result (Goes S.noted (S.asked stores.old.stores.now) (S.asked stores.new.stores.now) (IsUnlisted (joined_of of.entry))) }
    {
        let far = stores.far_boxes(of.far_store)?;
        let near = stores.near_boxes(of.near_store)?;
        Ok(Found { far, near })
    }

    /// The mailboxes of either store that the patterns choose, in the order of their bytes.
    pub(crate) fn matching(
        &self,
        alloc: Global,
        patterns: &Patterns,
    ) -> Result<Vec<MailboxName>, ListFault>
        ensures { IfOk result (λ boxes. (is_chosen : List ℕ → Bool) → Reports is_chosen patterns.now
            → boxes.items ≡ boxes_among is_chosen self.now.far.items self.now.near.items) }
    {
        match boxes_among(alloc, patterns, &self.far, &self.near) {
            Ok(boxes) => Ok(boxes),
            Err(AllocError) => Err(ListFault::NoMemory),
        }
    }

    /// The sides on which a mailbox is absent.
    pub(crate) fn absent(&self, far: &MailboxName, near: &MailboxName) -> Sides
        requires rising { Rises self.now.far.items × Rises self.now.near.items }
        ensures { result ≡ absent_in self.now.far.items self.now.near.items far.now near.now }
    {
        Sides {
            far: !stands_in(&self.far, far),
            near: !stands_in(&self.near, near),
        }
    }
}
