//! What the threads give back.
ghost use Rattle.std.specs.Prelude.{◌≡◌, map, IfOk};
ghost use Rattle.std.specs.List.{flat_map, list_any};
ghost use Rattle.threads_play.specs.declared.ending.CpuEnd.{CpuEnd};
ghost use Rattle.threads_play.specs.Ended.{texts_of};
ghost use Rattle.threads_play.specs.Work.{lacks_memory, was_refused};

use crate::ending::CpuEnd;
use kernel_state::EnterRefusal;
use normal_cpus::CpuPass;
use std::alloc::{AllocError, Global};

/// Whether there was no memory for a processor's work.
pub fn lacked_memory(end: &CpuEnd) -> bool
    ensures { result ≡ lacks_memory end.now.outcome }
{
    match end.outcome {
        Err(EnterRefusal::Memory) => true,
        Ok(()) | Err(EnterRefusal::Full { .. }) => false,
    }
}

/// Whether an entry of the processor was refused since all entries would have read too much.
pub fn refused(end: &CpuEnd) -> bool
    ensures { result ≡ was_refused end.now.outcome }
{
    match end.outcome {
        Err(EnterRefusal::Full { .. }) => true,
        Ok(()) | Err(EnterRefusal::Memory) => false,
    }
}

/// Whether there was no memory for some.
pub fn some_lacked_memory(ends: &[CpuEnd]) -> bool
    ensures { result ≡ list_any (λ (end : CpuEnd). lacks_memory end.outcome) ends.now }
{
    ends.iter().any(|end| lacked_memory(end))
}

/// Whether an entry of some was refused.
pub fn some_refused(ends: &[CpuEnd]) -> bool
    ensures { result ≡ list_any (λ (end : CpuEnd). was_refused end.outcome) ends.now }
{
    ends.iter().any(|end| refused(end))
}

/// The blocks, one behind the other.
pub fn text_of(alloc: Global, ends: &[CpuEnd]) -> Result<Vec<u8>, AllocError>
    ensures { IfOk result (λ text. text.items ≡ flat_map (λ block. block) (texts_of ends.now)) }
{
    let mut text = Vec::new(alloc);
    for end in ends {
        text.extend_from_slice(end.block.as_slice())?;
    }
    Ok(text)
}

/// The passes.
pub fn passes_of(alloc: Global, ends: Vec<CpuEnd>) -> Result<Vec<CpuPass>, AllocError>
    ensures { IfOk result (λ passes. passes.items ≡ map (λ (end : CpuEnd). end.pass) ends.items) }
{
    ends.into_iter().map(|end| end.pass).collect(alloc)
}
