use crate::blanks::Blanks;
use crate::cancellation::Cancellation;
use crate::processor::Processor;
use crate::setup::Setup;
use crate::tables::Tables;
use event_log::Log;
use frame_pool::Pages;
use rpc_cont::Cont;
use thread_slots::Slots;

/// What a core keeps, without the fact that this stands for its kernel.
#[derive(Drop)]
pub struct Parts {
    pub setup: Setup,
    /// The calls that wait to be resumed. An active one is out with its processor.
    pub slots: Slots<Box<Cont<Pages>>>,
    /// One for each slot.
    pub cancellations: Vec<Cancellation>,
    /// The processors, by their numbers.
    pub processors: Vec<Processor>,
    pub tables: Tables,
    /// Boxes for new calls.
    pub blanks: Blanks,
    /// All events, kept or counted, with room for the exits of the processors that are inside.
    pub journal: Log,
}
