//! What goes next.

use h2_answers::Due;

/// What a connection writes next.
#[derive(Clone, Copy, Debug, PartialEq, Eq)]
pub(crate) enum Next {
    /// No frame that is due fits.
    Nothing,
    /// The first of the control frames that wait.
    Control,
    /// A part of an answer.
    Part(Due),
}
