//! What the command line of `mbsync` asks for.

use rules::sync_words::SyncWord;

/// What the command line asks for.
#[derive(Drop)]
pub struct RunRequest {
    /// The configuration file, if one is named (`-c FILE`).
    pub file: Option<String>,
    /// Which channels.
    pub chosen: Chosen,
    /// Whether the boxes are only listed (`-l`).
    pub lists: bool,
    /// The Sync words that stand in place of every channel's, in the order of the synopsis. None: each channel's own.
    pub sync_words: Vec<SyncWord>,
    /// Whether Expunge is Both on every channel (`--expunge`).
    pub expunges: bool,
}

/// Which channels a command line names.
#[derive(Drop)]
pub enum Chosen {
    /// All, in the order of the file (`-a`).
    All,
    /// The channels and groups of these names, in the order of the line.
    Named(Vec<String>),
}
