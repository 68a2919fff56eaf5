//! Whose changes a sync makes outlive a loss of power.

/// Whose changes a sync makes outlive a loss of power.
#[derive(Clone, Copy, PartialEq, Eq)]
pub enum Whose {
    /// Those that were made since the device was opened.
    Own,
    /// Also those that an earlier process has made, which may have been killed before it synced them.
    All,
}
