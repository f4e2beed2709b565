/// The registers a0 to a7 of a call, or of its answer.
#[derive(Clone, Copy, Debug, PartialEq, Eq)]
pub struct Regs {
    pub a: [u32; 8],
}
