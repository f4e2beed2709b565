use core_machine::Told;

/// An exit of a processor, which is told nothing yet.
#[derive(Clone, Copy)]
pub struct Exit {
    /// The kernel's answer.
    pub answer: Told,
    /// The code of the panic in which the granted steps of its call have ended, if they did: the registers don't show it.
    pub panic: Option<u32>,
}
