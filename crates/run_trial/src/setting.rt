//! What the run of a trial is made over: the server with its far mailbox and where the link to it stops, the folder and the shelf.

ghost use Rattle.std.specs.Prelude.{◌≡◌, IfOk};
ghost use Rattle.imap_client.specs.Seen.{HasMap};
ghost use Rattle.imap_server.specs.Boxes.{AreServed};
ghost use Rattle.run_trial.specs.Worlds.{FitsWords, world_of};
ghost use Rattle.run_trial.specs.Settings.{IsSettingOf, inbox_of};

use crate::act::TrialActs;
use crate::arrival::TrialArrivals;
use crate::failure::TrialError;
use crate::folder::folder_with;
use crate::schedule::schedule_of;
use crate::server::server_with;
use crate::shelf::shelf_with;
use crate::stop::FarStop;
use crate::trial::{Trial, TrialCourse};
use book::mem_shelf::MemShelf;
use imap_server::server::Server;
use mailcore::keywords::Keywords;
use mailcore::mailbox::StoredMailbox;
use maildir::mem_folder::MemFolder;
use mem_link::schedule::Schedule;
use rules::options::Options;
use rules::state::SyncState;
use std::alloc::Global;
use worlds::world::World;

/// What the run of a trial is made over, before there is a link to the server.
#[derive(Drop)]
pub struct TrialSetting {
    /// The server with the far mailbox, and where the link to it stops.
    pub far: FarSetting,
    /// The folder of the near mailbox.
    pub folder: MemFolder,
    /// The state, and the journal.
    pub shelf: MemShelf,
    /// The state that the shelf holds.
    pub state: SyncState,
    /// What others add meanwhile.
    pub arrivals: TrialArrivals,
    /// What other clients do to messages meanwhile.
    pub acts: TrialActs,
    /// What the run may do, and its map of keywords, which is the server's.
    pub options: Options,
}

/// The server, and how the link to it stops and leaves out APPENDUID.
#[derive(Drop)]
pub struct FarSetting {
    /// The server.
    pub server: Server,
    /// Where the link to it stops, and which replies over it come without APPENDUID.
    pub schedule: Schedule,
}

/// The server with this mailbox and this map of keywords, and the stops of the link to it, over which the replies to some APPENDs come
/// without APPENDUID.
fn far_with(
    alloc: Global,
    far: StoredMailbox,
    keywords: Keywords,
    stops: &[FarStop],
    mutes: Vec<u64>,
) -> Result<FarSetting, TrialError>
    ensures served { IfOk result (λ far. AreServed far.server.server.mailboxes) }
    ensures inbox { IfOk result (λ setting. setting.server.server.mailboxes ≡ inbox_of far) }
    ensures letters { IfOk result (λ setting. HasMap keywords setting.server.server) }
{
    let server = server_with(alloc, far, keywords)?;
    let schedule = schedule_of(alloc, stops, mutes)?;
    Ok(FarSetting { server, schedule })
}

/// The setting of a trial, from its world and its course. `NoWorld`: it has a message that cannot be sent. This does not come of a trial
/// that was read.
pub fn setting_of(alloc: Global, trial: Trial) -> Result<TrialSetting, TrialError>
    ensures served { IfOk result (λ setting. AreServed setting.far.server.server.mailboxes) }
    ensures letters { IfOk result (λ setting. HasMap setting.options.keywords setting.far.server.server) }
    ensures holds { IfOk result (λ setting. IsSettingOf trial setting) }
    ensures arrivals { IfOk result (λ setting. setting.arrivals ≡ trial.course.arrivals) }
    ensures acts { IfOk result (λ setting. setting.acts ≡ trial.course.acts) }
    ensures fits { IfOk result (λ _. FitsWords (world_of trial.world)) }
{
    let Trial { world, course } = trial;
    let World {
        far,
        near,
        waiting,
        state,
        options,
    } = world;
    let TrialCourse {
        journal,
        stops,
        mutes,
        arrivals,
        acts,
        tries: _,
    } = course;
    // Their ranges are known from these.
    let _ranges = (
        far.validity,
        far.next,
        near.validity,
        near.next,
        state.run,
        waiting.len(),
    );
    let keywords = options.keywords.try_clone(alloc)?;
    let far = far_with(alloc, far, keywords, &stops.link, mutes);
    let folder = folder_with(alloc, near, waiting, stops.folder, &options.keywords);
    let shelf = shelf_with(alloc, &state, journal, stops.shelf);
    Ok(TrialSetting {
        far: far?,
        folder: folder?,
        shelf: shelf?,
        state,
        arrivals,
        acts,
        options,
    })
}
