use base::Sequence;

/// One read of the normal world's RAM.
#[derive(Drop)]
pub struct Read {
    /// The address of the first byte.
    pub addr: u64,
    /// What stood there when it was read.
    pub bytes: Sequence<u8>,
}
