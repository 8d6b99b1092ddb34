use crate::goal::Goal;

/// A part of the search that is still to be done.
#[derive(Debug, Drop)]
pub enum Task {
    /// To search from a goal.
    Search(Goal),
    /// To note that a goal is found: its premises are searched before.
    Note(Goal),
}
