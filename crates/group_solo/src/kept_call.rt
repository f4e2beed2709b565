use rpc_cont::Cont;
use ta_step::Plain;

/// A call, from its entry until it is told its result.
#[derive(Drop)]
pub struct KeptCall {
    /// The numbers of its session and of its instance, 0 of one that was settled as it came in.
    pub session: u64,
    pub instance: u64,
    /// Of an open that has waited and finds its instance gone: whether there are pages for a new one, once it was told.
    pub room: Option<bool>,
    pub cont: Cont<Plain>,
}
