//! The two directions of a connection.

/// Whose lines are read.
#[derive(Clone, Copy, PartialEq, Eq)]
pub enum Speaker {
    /// A client's commands: a literal may be `{n+}`, and after `{n}` the client waits.
    Commands,
    /// A server's replies: a literal is `{n}`, and nobody waits.
    Replies,
}
