use base::Sequence;
use trace_text::Trace;

/// The hardware signals a value.
#[derive(Clone, Copy)]
pub struct Signal {
    /// How many items of the trace stand before it.
    pub at: usize,
    /// 1 to 63.
    pub value: u32,
}

/// A trace, and the signals between its items, in their order. Without a boot there are no signals.
#[derive(Drop)]
pub struct NotifyTrace {
    pub trace: Trace,
    pub signals: Sequence<Signal>,
}
