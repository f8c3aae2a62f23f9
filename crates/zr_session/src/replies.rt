//! What becomes of replies.

/// Whether the replies to commands are sent.
#[derive(Clone, Copy, Debug, PartialEq, Eq)]
pub enum Replies {
    /// Each is sent before the next command is done.
    Sent,
    /// None is sent.
    Kept,
}
