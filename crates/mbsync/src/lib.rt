//! The library of `mbsync`: what its programs do, over readers, writers and stores, and what they do it with. Each item stands in a
//! crate of its own, on which the programs stand.
#![tactic(auto)]

// ---- What a run calls for

/// The propagations that the rules call for, in order.
pub use planner::plan::plan;
/// How many marks `plan` wants.
pub use planner::news::news;
/// The messages that are not new for want of fitness alone.
pub use planner::unfit::unfit;
/// Why there is no plan.
pub use planner::fault::PlanFault;
/// The cells of a run, and the sides that it expunges.
pub use rules::options::{Cells, Options};
/// The cells that words of Sync choose, or why they choose none.
pub use rules::sync_words::{SyncFault, sync_ops};

// ---- Configurations and command lines

/// What a configuration file says.
pub use config::config::{Boxes, Channel, Config, Group, ImapStore, MaildirStore};
/// Why a text is no configuration, and at which line.
pub use config_words::fault::{ConfigFault, FaultKind};
/// Which mailboxes patterns choose.
pub use config_words::patterns::{Pattern, Patterns, matches};
/// Reads a configuration.
pub use config::read::read_config;
/// Why the words of a command line ask for nothing.
pub use command_line::fault::UsageFault;
/// Reads the words of a command line.
pub use command_line::read::read_words;
/// What a command line asks for.
pub use config::request::{Chosen, RunRequest};

// ---- Stores and runs

/// The stores that channels are synchronised over, as traits.
pub use channels::stores::{BoxLists, Stores};
/// The real stores: servers over TCP and folders of a disk.
pub use mail_stores::mail_stores::MailStores;
/// From which openings runs over them are looked at, as a trait for contracts alone.
pub use mail_stores::openings::Openings;
/// Shows how far a run over the real stores is, as a trait.
pub use runner::progress::Progress;
/// The generator of random words, from a seed.
pub use mail_run::generator::generator;
/// What a run calls, as a trait.
pub use outside::outside::Outside;
/// Why a run is not finished.
pub use runner::fault::RunFault;
/// What an attempt at a run, and several, come to.
pub use runner::pass::{Pass, Settled};
/// A step that was performed.
pub use runner::performed::Performed;
/// An attempt at a run.
pub use runner::run::pass;
/// Several attempts at a run.
pub use runner::settle::settle;

// ---- What is reported of a run

/// The text of an answer and of a performed step; a `RunFault` prints itself.
pub use reports::answer::answer_text;
pub use reports::performed::PerformedLine;

// ---- The programs

/// `mbplan`: lists what a run would do.
pub use run_plan::run::{PlanArguments, run_plan};
/// `mbtrial`: makes a run in memory, with stops.
pub use run_trial::run::run_trial;
/// `trial-imapd`: serves one connection.
pub use serve::stream::serve_stream;
/// `mbsync`: does what a command line asks for, over any stores.
pub use channels::run::run_config;
/// `mbsync`, with its files, its clock and the real stores.
pub use mail_run::run::run_mail;
