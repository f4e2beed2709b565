use ta_params::CopiedParams;

/// What a call is made with: four parameters, in which the outputs come back.
#[derive(Drop)]
pub struct Operation {
    /// A buffer has at most 65,536 bytes, and the size of memory is that of its buffer.
    pub params: CopiedParams,
    /// The call is cancelled before the RPC return of this number is answered, counted from 1. Every return counts,
    /// interrupts too.
    pub cancel_after: Option<u32>,
}
