//! A work over both sides of a mailbox, with a guard.

ghost use Rattle.std.specs.Prelude.{◌≡◌};
ghost use Rattle.channels.specs.Asked.{place_of};
ghost use Rattle.channels.specs.Lendings.{IsLent, Lends};
ghost use Rattle.std.specs.Int.NonZero.{non_zero_u32_get};
ghost use Rattle.mail_stores.specs.Lent.{LendsAs};
ghost use Rattle.mail_stores.specs.Loans.{AreHonest, both_sides, lent_among_all};
ghost use Rattle.mail_stores.specs.Placed.{shown};

use crate::lend::lend;
use crate::loans::Loans;
use book::shelf::Shelf;
use channels::channel_box::ChannelBox;
use channels::stores::Work;
use guarded::guard::Guard;
use guarded::guarded_outside::GuardedOutside;
use imap_link::link::Link;
use mail_sides::far_side::FarSide;
use mail_sides::sides::BothSides;
use mailcore::keywords::Keywords;
use maildir::folder::Folder;
use near_places::lock::Lock;
use runner::progress::Progress;
use std::alloc::Global;
use std::num::NonZeroU32;

/// Both sides of a mailbox, with the guard of the runs over them.
#[derive(Drop)]
pub(crate) struct GuardedSides<L: Link, F: Folder, S: Shelf, G> {
    pub(crate) sides: BothSides<L, F, S>,
    pub(crate) guard: G,
}

impl<L: Link + Drop, F: Folder + Drop, S: Shelf + Drop, G: Guard + Drop> GuardedSides<L, F, S, G> {
    /// Lends both sides, which are those of this mailbox, and does this over them, while its lock is held. Its calls stop where the guard
    /// says no. All is closed then, and is given back beside what the work came to. The UIDVALIDITY of the near mailbox is `fresh` where it
    /// has none, and its map of keywords is that of the far one.
    pub(crate) fn work<W: Work + Drop, P: Progress, K>(
        self,
        place: ChannelBox<'_>,
        _lock: &Lock<K>,
        alloc: Global,
        fresh: NonZeroU32,
        keywords: Keywords,
        work: W,
        progress: &P,
        loans: &mut Loans<L, F, S>,
    ) -> (Self, W::Answer)
        requires map { self.sides.far.far.keywords ≡ keywords }
        requires asked { keywords ≡ (W.options work).keywords }
        ensures lent { Lends (AreHonest F.honest S.honest) (lent_among_all (both_sides L.visitors F.visitors)) loans.old loans.new
            (IsLent (place_of place.entry) (λ this. W.did work this result.1)) }
        ensures noted { LendsAs (place_of place.entry) (shown F.seen S.seen (non_zero_u32_get fresh) self.sides) loans.old.lent.loans loans.new.lent.loans }
    {
        let GuardedSides { sides, guard } = self;
        let both = sides.together(alloc, fresh, keywords);
        let mut outside = GuardedOutside::new(both, guard);
        let answer = lend(place, &mut outside, work, progress, &mut loans.lent);
        let (both, guard) = outside.into_parts();
        let sides = BothSides::of(both);
        loans.give_back(&sides);
        (GuardedSides { sides, guard }, answer)
    }

    /// Gives the far side.
    pub(crate) fn into_far(self) -> FarSide<L> {
        let GuardedSides { sides, .. } = self;
        let BothSides { far, .. } = sides;
        far
    }
}
