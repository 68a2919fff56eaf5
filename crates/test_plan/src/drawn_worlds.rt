//! Worlds that are drawn from a row of numbers, always the same ones.

use mailcore::fault::PushFault;
use mailcore::flags::{Flag, Flags};
use mailcore::keywords::Keywords;
use mailcore::listing::{Item, Items, Listing};
use mailcore::uid::Uid;
use planner::state::{Cells, Directions, Entries, Entry, Options, Sides, SyncState};
use std::alloc::Global;

/// A row of numbers: each is made of the one before, times 6364136223846793005 and 1442695040888963407 more.
#[derive(Drop)]
pub struct Numbers {
    last: u64,
    /// Whether memory ran out for a world.
    pub is_lost: bool,
}

/// What a plan is made on.
#[derive(Drop)]
pub struct DrawnWorld {
    /// The far mailbox.
    pub far: Listing,
    /// The near one.
    pub near: Listing,
    /// What the last run recorded.
    pub state: SyncState,
    /// What the run may do.
    pub options: Options,
}

impl Numbers {
    /// The row that begins after this number.
    pub fn new(seed: u64) -> Numbers {
        Numbers {
            last: seed,
            is_lost: false,
        }
    }

    /// A number below this one, which is 1 or more.
    fn below(&mut self, bound: u32) -> u32 {
        self.last = self
            .last
            .wrapping_mul(6364136223846793005)
            .wrapping_add(1442695040888963407);
        let high = (self.last >> 33) as u32;
        high.checked_rem(bound).unwrap_or(0)
    }

    fn coin(&mut self) -> bool {
        self.below(2) == 1
    }

    fn directions(&mut self) -> Directions {
        Directions {
            pull: self.below(4) > 0,
            push: self.below(4) > 0,
        }
    }

    fn flags(&mut self) -> Flags {
        let flags = [
            Flag::Draft,
            Flag::Flagged,
            Flag::Forwarded,
            Flag::Answered,
            Flag::Seen,
            Flag::Deleted,
        ];
        let mut drawn = Flags::none();
        for flag in flags {
            if self.below(4) == 0 {
                drawn = drawn.union(Flags::only(flag));
            }
        }
        drawn
    }

    /// A UID from 1 to 18, or none.
    fn uid_or_none(&mut self) -> Option<Uid> {
        Uid::new(self.below(19))
    }

    /// A mailbox of up to 12 messages, whose UIDs have gaps.
    fn mailbox(&mut self, alloc: Global) -> Listing {
        let mut items = Items::new(alloc);
        let mut number = 0;
        for _ in 0..self.below(13) {
            number = self.below(3).saturating_add(number).saturating_add(1);
            let (flags, fit) = (self.flags(), self.below(5) > 0);
            if let Some(uid) = Uid::new(number) {
                self.note(items.push(Item { uid, flags, fit }));
            }
        }
        Listing {
            validity: 1 + self.below(16) / 15,
            next: 40,
            items,
        }
    }

    /// Up to 12 entries, of which one or the other side may have vanished.
    fn entries(&mut self, alloc: Global) -> Entries {
        let mut entries = Entries::new(alloc);
        let mut number = 0;
        for _ in 0..self.below(13) {
            number = self.below(3).saturating_add(number);
            let (far, near, flags) = (Uid::new(number), self.uid_or_none(), self.flags());
            let near = if self.below(5) == 0 { None } else { near };
            self.note(entries.push(Entry { far, near, flags }));
        }
        entries
    }

    /// The next world.
    pub fn world(&mut self, alloc: Global) -> DrawnWorld {
        let (far, near) = (self.mailbox(alloc), self.mailbox(alloc));
        let state = SyncState {
            run: u64::from(self.below(4)),
            far_validity: 1,
            near_validity: 1,
            max_pulled: self.below(16),
            max_pushed: self.below(16),
            entries: self.entries(alloc),
        };
        let cells = Cells {
            new: self.directions(),
            gone: self.directions(),
            flags: self.directions(),
        };
        let expunge = Sides {
            far: self.coin(),
            near: self.coin(),
        };
        let keywords = Keywords::new(alloc);
        let options = Options {
            cells,
            expunge,
            keywords,
        };
        DrawnWorld {
            far,
            near,
            state,
            options,
        }
    }

    /// What may not follow the others is left out.
    fn note(&mut self, pushed: Result<(), PushFault>) {
        if matches!(pushed, Err(PushFault::NoMemory)) {
            self.is_lost = true;
        }
    }
}
