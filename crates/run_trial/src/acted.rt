//! A trial in which other clients do things to messages: what its run is made over, and what is reported of it. Of such a run no clause of
//! this crate says what it leaves; which calls it asks for holds of it too (`runner::settle`, clause `asked`).

ghost use Rattle.std.specs.Prelude.{◌≡◌, ◌≤◌, IfOk, map};
ghost use Rattle.imap_client.specs.Seen.{HasMap};
ghost use Rattle.imap_server.specs.Boxes.{AreServed};
ghost use Rattle.maildir.specs.MemFolders.{stored_in};
ghost use Rattle.run_trial.specs.Acting.{act_of};
ghost use Rattle.run_trial.specs.Among.{AreKept, arrival_of};

use crate::act::{FarAct, TrialActs};
use crate::devices::{Devices, settle_all, together};
use crate::failure::TrialError;
use crate::run::{TrialRequest, reported_of};
use crate::schedule::name_of;
use crate::server::{MAILBOX, TrialLink};
use crate::setting::{FarSetting, TrialSetting, setting_of};
use crate::trial::Trial;
use crate::visited::{NearSetting, VisitedSetting, visited};
use book::mem_shelf::MemShelf;
use link_face::face_link::FaceLink;
use link_face::words::Words;
use mailcore::keywords::Keywords;
use mailcore::octets::Octets;
use mailcore::others::AnyMarks;
use maildir::acted_folder::ActedFolder;
use maildir::file_acts::FileAct;
use mem_link::acted_link::ActedLink;
use mem_link::acts::{MailboxAct, MailboxActs};
use mem_link::arrivals::Arrivals;
use mem_link::command::Nth;
use mem_link::loop_link::LoopLink;
use mem_link::mem_link::MemLink;
use rules::options::Options;
use rules::state::SyncState;
use std::alloc::{AllocError, Global};
use std::mem;
use std::net::Net;
use std::rc::Rc;

/// What the run of a trial is made over in which other clients do things to messages, before there is a link to the server.
#[derive(Drop)]
struct ActedSetting {
    far: FarSetting,
    /// What others add to the far mailbox.
    arrivals: Arrivals,
    /// What they do to its messages.
    acts: MailboxActs,
    near: ActedNear,
    options: Options,
}

/// The folder, the shelf, and the state that the shelf holds.
#[derive(Drop)]
struct ActedNear {
    folder: ActedFolder,
    shelf: MemShelf,
    state: SyncState,
}

/// What is reported of this trial, in which other clients do things to messages.
pub(crate) fn reported_acted<R: Net + AllocGlobal + Clone + Drop>(
    rt: R,
    request: TrialRequest,
    trial: Trial,
) -> Result<(String, u8), TrialError>
    ensures { IfOk result (λ reported. reported.1 ≤ 1) }
{
    let alloc = rt.alloc();
    let tries = trial.course.tries;
    let setting = acted(alloc, setting_of(alloc, trial)?)?;
    match request {
        TrialRequest::Memory | TrialRequest::Unknown => reported_in_memory(
            alloc, setting, None, tries,
        ),
        TrialRequest::Pieces(piece) => reported_in_memory(alloc, setting, Some(piece), tries),
        TrialRequest::Face => reported_through_face(alloc, setting, tries),
        TrialRequest::Loopback => reported_over_loopback(rt, setting, tries),
    }
}

/// What is reported of a run in memory, where at most so many bytes are received at once, if a number is given.
fn reported_in_memory(
    alloc: Global,
    setting: ActedSetting,
    piece: Option<usize>,
    tries: u32,
) -> Result<(String, u8), TrialError>
    requires { AreServed setting.far.server.server.mailboxes }
    ensures { IfOk result (λ reported. reported.1 ≤ 1) }
{
    let ActedSetting {
        far,
        arrivals,
        acts,
        near,
        options,
    } = setting;
    let mut link = MemLink::new(alloc, far.server, far.schedule);
    if let Some(piece) = piece {
        link = link.in_pieces(piece);
    }
    let link = ActedLink::new(link, arrivals, acts);
    reported_over(alloc, link, near, &options, tries)
}

/// What is reported of a run through a face.
fn reported_through_face(
    alloc: Global,
    setting: ActedSetting,
    tries: u32,
) -> Result<(String, u8), TrialError>
    requires { AreServed setting.far.server.server.mailboxes }
    ensures { IfOk result (λ reported. reported.1 ≤ 1) }
{
    let ActedSetting {
        far,
        arrivals,
        acts,
        near,
        options,
    } = setting;
    let words = Rc::new(alloc, Words::new(alloc))?;
    let link = ActedLink::new(
        MemLink::new(alloc, far.server, far.schedule),
        arrivals,
        acts,
    );
    reported_over(
        alloc,
        FaceLink::new(alloc, link, words),
        near,
        &options,
        tries,
    )
}

/// What is reported of a run over a loopback connection.
fn reported_over_loopback<R: Net + AllocGlobal + Clone + Drop>(
    rt: R,
    setting: ActedSetting,
    tries: u32,
) -> Result<(String, u8), TrialError>
    requires { AreServed setting.far.server.server.mailboxes }
    ensures { IfOk result (λ reported. reported.1 ≤ 1) }
{
    let ActedSetting {
        far,
        arrivals,
        acts,
        near,
        options,
    } = setting;
    let alloc = rt.alloc();
    let link = LoopLink::new(rt, far.server, far.schedule)
        .among(arrivals)
        .acting(acts);
    reported_over(alloc, link, near, &options, tries)
}

/// What is reported of a run over this link and what stands near.
fn reported_over<L: TrialLink + Drop>(
    alloc: Global,
    link: L,
    near: ActedNear,
    options: &Options,
    tries: u32,
) -> Result<(String, u8), TrialError>
    requires { L.honest link → HasMap options.now.keywords (L.line link).end.server }
    ensures { IfOk result (λ reported. reported.1 ≤ 1) }
{
    let ActedNear {
        folder,
        shelf,
        state,
    } = near;
    let outside = together(alloc, link, folder, shelf, &options.keywords)?;
    let (outside, settled) = settle_all(alloc, outside, options, tries, &state);
    reported_of(alloc, Devices::acted(outside)?, settled)
}

/// The setting, with what other clients do.
fn acted(alloc: Global, setting: TrialSetting) -> Result<ActedSetting, AllocError>
    requires { AreServed setting.far.server.server.mailboxes }
    ensures served { IfOk result (λ a. AreServed a.far.server.server.mailboxes) }
    ensures far { IfOk result (λ a. a.far ≡ setting.far) }
    ensures options { IfOk result (λ a. a.options ≡ setting.options) }
    ensures arrivals { IfOk result (λ a. a.arrivals.list.items ≡ map arrival_of setting.arrivals.far.items) }
    ensures acts { IfOk result (λ a. a.acts.list.items ≡ map act_of setting.acts.far.items) }
    ensures near { IfOk result (λ a. (stored_in a.near.folder.folder.folder ≡ stored_in setting.folder)
        × (a.near.folder.folder.arrivals ≡ setting.arrivals.near) × (a.near.folder.acts ≡ setting.acts.near)) }
    ensures kept { IfOk result (λ a. AreKept setting a.near.shelf a.near.state) }
{
    let mut setting = setting;
    let TrialActs {
        far: far_acts,
        near: near_acts,
    } = mem::replace(&mut setting.acts, TrialActs::new(alloc));
    let VisitedSetting::<AnyMarks> {
        far,
        arrivals,
        near,
        options,
    } = visited(alloc, setting)?;
    let near = acted_near(near, options.keywords.try_clone(alloc)?, near_acts);
    Ok(ActedSetting {
        far,
        arrivals,
        acts: mailbox_acts(alloc, &far_acts)?,
        near,
        options,
    })
}

/// What stands near, where other programs do this.
fn acted_near(near: NearSetting<AnyMarks>, keywords: Keywords, acts: Vec<FileAct>) -> ActedNear
    ensures folder { result.folder.folder ≡ near.folder }
    ensures acts { result.folder.acts ≡ acts }
    ensures shelf { result.shelf ≡ near.shelf }
    ensures state { result.state ≡ near.state }
{
    let NearSetting {
        folder,
        shelf,
        state,
    } = near;
    ActedNear {
        folder: ActedFolder::new(folder, keywords, acts),
        shelf,
        state,
    }
}

/// What other clients do to messages of the far mailbox, as a link says it.
fn mailbox_acts(alloc: Global, acts: &[FarAct]) -> Result<MailboxActs, AllocError>
    ensures { IfOk result (λ a. a.list.items ≡ map act_of acts.now) }
{
    let mailbox = Octets::from_vec(Vec::from_slice(alloc, MAILBOX)?);
    let mut list = Vec::with_capacity(alloc, acts.len())?;
    for act in acts {
        list.push(MailboxAct {
            at: Nth {
                name: name_of(act.command),
                number: act.number,
            },
            uid: act.uid,
            deed: act.deed,
        })?;
    }
    Ok(MailboxActs { mailbox, list })
}
