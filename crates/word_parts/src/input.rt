//! Reading the whole input of a word.

ghost use Rattle.std.specs.Prelude.{◌≡◌, ◌≢◌, ◌+◌, ◌≤◌, ◌^◌, length, vec_len, IfErr, IfOk, IfSome, Ok, Err};
ghost use Rattle.ports.specs.Port.{Rose};
ghost use Rattle.word_parts.specs.Input.{IsReadWhole, IsUnreadAs, TakesAtMost, TakesSome};

use crate::status::Status;
use ports::{Source, Taken};
use std::alloc::{AllocError, Global};

/// The most bytes that an input may have.
pub const LONGEST_INPUT: usize = 1 << 24;

/// How many bytes are asked for at once.
const CHUNK_BYTES: usize = 1 << 16;

/// A buffer of so many bytes.
fn buffer_of(alloc: Global, count: usize) -> Result<Vec<u8>, AllocError>
    ensures { IfOk result (λ buffer. vec_len buffer ≡ count) }
{
    vec![in alloc; 0; count]
}

/// Takes some bytes into the buffer, and appends them.
fn take_some<S: Source>(
    input: &mut S,
    buffer: &mut [u8],
    bytes: &mut Vec<u8>,
) -> Result<Taken, AllocError>
    ensures taken { TakesAtMost (length buffer.old) (S.left input.old) (S.left input.new) }
    ensures ok { IfOk result (TakesSome (S.left input.old) (S.left input.new) bytes.old.items bytes.new.items (length buffer.old)) }
    ensures failed { IfOk result (λ taken. taken ≡ Taken.Failed → Rose (S.faults input.old) (S.faults input.new)) }
    ensures count { S.faults input.old ≤ S.faults input.new }
    ensures stays { result ≢ Ok Taken.Failed → S.faults input.new ≡ S.faults input.old }
{
    let taken = input.take(buffer);
    if let Taken::Bytes(count) = taken {
        bytes.extend_from_slice(&buffer[..count])?;
    }
    Ok(taken)
}

/// Reads the input to its end, in which each turn takes at least one byte, or answers the status that a word ends with where it isn't
/// read whole: of an input that is too long one byte more than it may have was taken.
pub fn read_whole<S: Source>(alloc: Global, input: &mut S) -> Result<Vec<u8>, Status>
    ensures whole { IfOk result (λ bytes. IsReadWhole bytes.items (S.left input.old) (S.left input.new)) }
    ensures unread { IfErr result (λ status. IfSome (S.left input.old) (IsUnreadAs status)) }
    ensures words { result ≡ Err Status.Usage → ⊥ }
    ensures writes { result ≡ Err Status.WriteFault → ⊥ }
    ensures read_fault { result ≡ Err Status.ReadFault → Rose (S.faults input.old) (S.faults input.new) }
    ensures taken { TakesAtMost (2 ^ 24 + 1) (S.left input.old) (S.left input.new) }
    ensures count { S.faults input.old ≤ S.faults input.new }
    ensures stays { result ≢ Err Status.ReadFault → S.faults input.new ≡ S.faults input.old }
{
    let mut bytes = Vec::new(alloc);
    let mut chunk = buffer_of(alloc, CHUNK_BYTES)?;
    while bytes.len() <= LONGEST_INPUT {
        let room = (LONGEST_INPUT + 1 - bytes.len()).min(CHUNK_BYTES);
        match take_some(input, &mut chunk[..room], &mut bytes)? {
            Taken::Bytes(_) => {}
            Taken::End => return Ok(bytes),
            Taken::Failed => return Err(Status::ReadFault),
        }
    }
    Err(Status::TooLong)
}
