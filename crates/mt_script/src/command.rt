//! The commands of a script.

/// What one line of a script says to do. The numbers stand in the order of the line; each is below
/// 1,000,000,000.
#[derive(Clone, Copy, Debug, PartialEq, Eq)]
pub enum Command {
    /// `feed N`: N is at least 1.
    Feed(u32),
    /// `turn S N`: the server S; N is at least 1.
    Turn(u32, u32),
    /// `split G S T`: the group G and the servers S and T.
    Split(u32, u32, u32),
    /// `merge G S T`: the group G and the servers S and T.
    Merge(u32, u32, u32),
    /// `step N`: N is at least 1.
    Step(u32),
    /// `drain`.
    Drain,
    /// `stats`.
    Stats,
}
