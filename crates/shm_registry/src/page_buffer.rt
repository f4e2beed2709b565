use base::Sequence;

/// A buffer that the normal world has registered.
#[derive(Drop)]
pub struct PageBuffer {
    /// The addresses of its pages, in the order of its bytes.
    pub pages: Sequence<u64>,
    /// Where its first byte stands in the first page, below 4096.
    pub offset: u32,
    /// The number of its bytes.
    pub size: u64,
}
