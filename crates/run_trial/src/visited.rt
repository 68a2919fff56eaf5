//! What the run of a trial is made over in which others add messages.

ghost use Rattle.std.specs.Prelude.{◌≡◌, All, IfOk, map};
ghost use Rattle.imap_server.specs.Boxes.{AreServed};
ghost use Rattle.mailcore.specs.Content.{mark_of};
ghost use Rattle.maildir.specs.MemFolders.{stored_in};
ghost use Rattle.mem_link.specs.Others.{AreForeign};
ghost use Rattle.mailcore.specs.Visitors.{IsForeign};
ghost use Rattle.book.specs.MemShelves.{files_of};
ghost use Rattle.run_trial.specs.Among.{AreKept, arrival_of};

use crate::arrival::FarArrival;
use crate::schedule::name_of;
use crate::server::MAILBOX;
use crate::setting::{FarSetting, TrialSetting};
use book::mem_shelf::MemShelf;
use mailcore::octets::Octets;
use mailcore::others::Others;
use maildir::folder::Folder;
use maildir::mem_folder::MemFolder;
use maildir::visited_folder::{ArrivingFile as NearArrival, VisitedFolder};
use mem_link::arrivals::{Arrival, Arrivals};
use mem_link::command::Nth;
use rules::options::Options;
use rules::state::SyncState;
use std::alloc::{AllocError, Global};

/// What the run of a trial is made over in which others add messages, before there is a link to the server.
#[derive(Drop)]
pub(crate) struct VisitedSetting<O: Others> {
    pub(crate) far: FarSetting,
    /// What others add to the far mailbox.
    pub(crate) arrivals: Arrivals,
    pub(crate) near: NearSetting<O>,
    /// What the run may do, and its map of keywords, which is the server's.
    pub(crate) options: Options,
}

/// The folder, the shelf, and the state that the shelf holds.
#[derive(Drop)]
pub(crate) struct NearSetting<O: Others> {
    pub(crate) folder: VisitedFolder<O>,
    pub(crate) shelf: MemShelf,
    pub(crate) state: SyncState,
}

/// The setting, with what others add.
pub(crate) fn visited<O: Others>(
    alloc: Global,
    setting: TrialSetting,
) -> Result<VisitedSetting<O>, AllocError>
    requires { AreServed setting.far.server.server.mailboxes }
    ensures served { IfOk result (λ v. AreServed v.far.server.server.mailboxes) }
    ensures letters { IfOk result (λ v. v.far.server.server.keywords ≡ setting.far.server.server.keywords) }
    ensures far { IfOk result (λ v. v.far ≡ setting.far) }
    ensures options { IfOk result (λ v. v.options ≡ setting.options) }
    ensures arrivals { IfOk result (λ v. v.arrivals.list.items ≡ map arrival_of setting.arrivals.far.items) }
    ensures near { IfOk result (λ v. (stored_in v.near.folder.folder ≡ stored_in setting.folder) × (v.near.folder.arrivals ≡ setting.arrivals.near)) }
    ensures kept { IfOk result (λ v. AreKept setting v.near.shelf v.near.state) }
    ensures foreign { All (λ a. IsForeign O.ours (mark_of a.bytes)) setting.arrivals.far.items
        → IfOk result (λ v. AreForeign O.ours v.arrivals.list.items) }
{
    let TrialSetting {
        far,
        folder,
        shelf,
        state,
        arrivals,
        options,
        acts: _,
    } = setting;
    let near = NearSetting {
        folder: folder_among(alloc, folder, arrivals.near),
        shelf,
        state,
    };
    Ok(VisitedSetting {
        far,
        arrivals: far_arrivals(alloc, arrivals.far)?,
        near,
        options,
    })
}

/// The folder to which others add these files.
fn folder_among<O: Others>(
    alloc: Global,
    folder: MemFolder,
    arrivals: Vec<NearArrival>,
) -> VisitedFolder<O>
    ensures folder { stored_in result.folder ≡ stored_in folder }
    ensures arrivals { result.arrivals ≡ arrivals }
{
    let mut folder = folder;
    folder.reopen();
    VisitedFolder::new(alloc, folder, arrivals)
}

/// What others add to the far mailbox, as a link says it.
fn far_arrivals(alloc: Global, arrivals: Vec<FarArrival>) -> Result<Arrivals, AllocError>
    ensures { IfOk result (λ a. a.list.items ≡ map arrival_of arrivals.items) }
{
    let mailbox = Octets::from_vec(Vec::from_slice(alloc, MAILBOX)?);
    let mut list = Vec::new(alloc);
    for arrival in arrivals {
        list.push(Arrival {
            at: Nth {
                name: name_of(arrival.command),
                number: arrival.number,
            },
            flags: arrival.flags,
            bytes: arrival.bytes,
        })?;
    }
    Ok(Arrivals { mailbox, list })
}
