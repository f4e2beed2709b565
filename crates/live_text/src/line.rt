use trace_text::Statement;

/// A line of a conversation that asks nothing.
#[derive(Drop)]
pub enum LiveLine {
    /// One of a trace with signals, which says this.
    Says(Statement),
    /// `history off`: from here on nothing is kept.
    HistoryOff,
}
