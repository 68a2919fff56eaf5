//! Which UIDVALIDITYs the mailboxes have answered, and which devices a run has listed, for contracts alone.

ghost use Rattle.std.specs.Prelude.{◌≡◌, ◌∷◌};
ghost use Rattle.outside.specs.Opened.{shown_far};
ghost use Rattle.outside.specs.Devices.{Device};
ghost use Rattle.run_pair.specs.Parts.{validities_after};

use crate::book_part::BookPart;
use crate::device_history::DeviceHistory;
use crate::pair::Pair;
use crate::tally::Tally;
use book::shelf::Shelf;
use device::history::History;
use mailcore::listing::Listing;
use outside::box_fault::BoxFault;
use outside::mailbox::Mailbox;

/// A mailbox was opened, with this answer.
pub(crate) fn note_opened(validities: &mut History<u32>, answer: &Result<u32, BoxFault>)
    ensures { validities.new.items ≡ validities_after answer.now validities.old.items }
{
    if let Ok(validity) = answer {
        *validities = validities.and(validity);
    }
}

/// The far mailbox of these parts was listed, and this was shown. The parts are there for contracts alone, which name the device by them.
fn note_far<F: Mailbox, N: Mailbox, S: Shelf>(
    listed: &mut DeviceHistory,
    _far: &F,
    _near: &N,
    _book: &BookPart<S>,
    _tally: &Tally,
    _listing: &Listing,
)
    ghost device: { Device }
    ensures { listed.new.devices ≡ device ∷ listed.old.devices }
{
    *listed = listed.and();
}

/// The near mailbox of these parts was listed.
fn note_near<F: Mailbox, N: Mailbox, S: Shelf>(
    listed: &mut DeviceHistory,
    _far: &F,
    _near: &N,
    _book: &BookPart<S>,
    _tally: &Tally,
)
    ghost device: { Device }
    ensures { listed.new.devices ≡ device ∷ listed.old.devices }
{
    *listed = listed.and();
}

impl<F: Mailbox, N: Mailbox, S: Shelf> Pair<F, N, S> {
    ghost use Rattle.run_pair.specs.Pairs.{HasParts, device_of};

    /// The far mailbox was listed, and this was shown.
    pub(crate) fn note_far_listing(&mut self, listing: &Listing)
        ensures parts { HasParts self.old self.new }
        ensures near { self.new.near_validities ≡ self.old.near_validities }
        ensures devices { self.new.listed.devices ≡ shown_far listing.now.next (device_of self.old) ∷ self.old.listed.devices }
        ensures validities { self.new.far_validities.items ≡ listing.now.validity ∷ self.old.far_validities.items }
    {
        note_far(
            &mut self.listed,
            &self.far,
            &self.near,
            &self.book,
            &self.tally,
            listing,
        );
        self.far_validities = self.far_validities.and(&listing.validity);
    }

    /// The near mailbox was listed, with this answer.
    pub(crate) fn note_near_listing(&mut self, listing: &Listing)
        ensures parts { HasParts self.old self.new }
        ensures far { self.new.far_validities ≡ self.old.far_validities }
        ensures devices { self.new.listed.devices ≡ device_of self.old ∷ self.old.listed.devices }
        ensures validities { self.new.near_validities.items ≡ listing.now.validity ∷ self.old.near_validities.items }
    {
        note_near(
            &mut self.listed,
            &self.far,
            &self.near,
            &self.book,
            &self.tally,
        );
        self.near_validities = self.near_validities.and(&listing.validity);
    }
}
