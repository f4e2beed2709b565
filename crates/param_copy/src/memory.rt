//! The memory of a parameter: where it lies, and its bytes.

ghost use Rattle.std.specs.Prelude.{◌≡◌, ◌+◌, ◌<◌, ◌≤◌, [], ◌++◌, length, IfOk, IfErr, OnErr, Some, Ok, Err};
ghost use Rattle.std.specs.List.{AllByRecursion};
ghost use Rattle.ns_ram.specs.Attempt.{passes, refuses};
ghost use Rattle.ns_ram.specs.Pages.{AppendsReads};
ghost use Rattle.ns_ram.specs.Reader.{over_lane};
ghost use Rattle.shm_registry.specs.Pieces.{IsPieceOfRam, page_count};
ghost use Rattle.param_copy.specs.Copying.{bytes_of};
ghost use Rattle.param_copy.specs.Memory.{bytes_in, chained_pieces, contiguous_pieces, one_piece, rmem_pieces, take_pieces, tmem_pieces, zeros_for};
ghost use Rattle.param_copy.specs.Outcome.{UnlessMemory};

use crate::copied::MAX_MEMREF_BYTES;
use crate::fault::CopyFault;
use base::NoMemory;
use msg_args::MsgParam;
use ns_ram::{Lane, PAGE_BYTES, Reads, WalkFault, in_ram, take_pages};
use shm_registry::{Piece, Registry, ResolveFault, pieces};
use std::alloc::Global;
use ta_params::Way;

/// Refuses a parameter whose size is above the limit.
fn within_limit(number: u8, param: &MsgParam) -> Result<(), CopyFault>
    ensures ok { IfOk result (λ _. param.now.q ≤ 65536) }
    ensures faulty { IfErr result (λ fault. (fault ≡ CopyFault.TooLong number)
        × (65536 < param.now.q)) }
{
    if param.q > MAX_MEMREF_BYTES {
        return Err(CopyFault::TooLong(number));
    }
    Ok(())
}

/// The pieces of a part of a registered buffer.
pub(crate) fn rmem_pieces(
    alloc: Global,
    registry: &Registry,
    number: u8,
    param: &MsgParam,
) -> Result<Vec<Piece>, CopyFault>
    ensures ok { IfOk result (λ pieces.
        rmem_pieces registry.now.buffers number param.now ≡ passes pieces.items) }
    ensures faulty { IfErr result (λ fault. UnlessMemory fault
        (rmem_pieces registry.now.buffers number param.now ≡ refuses fault)) }
    ensures in_ram { IfOk result (λ pieces. AllByRecursion IsPieceOfRam pieces.items) }
    ensures few { IfOk result (λ pieces. bytes_in pieces.items ≤ 65536) }
{
    within_limit(number, param)?;
    match registry.resolve(alloc, param.s, param.p, param.q) {
        Ok(pieces) => Ok(pieces),
        Err(ResolveFault::Unknown) => Err(CopyFault::Cookie(number)),
        Err(ResolveFault::Range) => Err(CopyFault::Range(number)),
        Err(ResolveFault::Memory) => Err(CopyFault::Memory),
    }
}

/// The pieces of memory that is named by its address or by page lists.
pub(crate) fn tmem_pieces(
    alloc: Global,
    lane: &Lane,
    number: u8,
    param: &MsgParam,
    reads: &mut Reads,
) -> Result<Vec<Piece>, CopyFault>
    ensures ok { IfOk result (λ pieces. over_lane (tmem_pieces number param.now) lane.now reads.old
        ≡ Some (Ok pieces.items, reads.new)) }
    ensures faulty { IfErr result (λ fault. UnlessMemory fault
        (over_lane (tmem_pieces number param.now) lane.now reads.old ≡ Some (Err fault, reads.new))) }
    ensures appended { AppendsReads lane.now reads.old reads.new }
    ensures in_ram { IfOk result (λ pieces. AllByRecursion IsPieceOfRam pieces.items) }
    ensures few { IfOk result (λ pieces. bytes_in pieces.items ≤ 65536) }
{
    if param.noncontig {
        within_limit(number, param)?;
        return chained_pieces(alloc, lane, number, param, reads);
    }
    if param.p == 0 {
        return Ok(Vec::new(alloc));
    }
    within_limit(number, param)?;
    contiguous_pieces(alloc, number, param)
}

/// The piece of bytes that stand one behind the other.
fn contiguous_pieces(alloc: Global, number: u8, param: &MsgParam) -> Result<Vec<Piece>, CopyFault>
    requires { param.now.q ≤ 65536 }
    ensures ok { IfOk result (λ pieces.
        contiguous_pieces number param.now ≡ passes pieces.items) }
    ensures faulty { IfErr result (λ fault. UnlessMemory fault
        (contiguous_pieces number param.now ≡ refuses fault)) }
    ensures in_ram { IfOk result (λ pieces. AllByRecursion IsPieceOfRam pieces.items) }
    ensures few { IfOk result (λ pieces. bytes_in pieces.items ≤ 65536) }
{
    if !in_ram(param.p, param.q) {
        return Err(CopyFault::Range(number));
    }
    Ok(one_piece(alloc, param.p, param.q as u32)?)
}

/// One piece, unless it would have no bytes.
fn one_piece(alloc: Global, addr: u64, len: u32) -> Result<Vec<Piece>, NoMemory>
    ensures { IfOk result (λ pieces. pieces.items ≡ one_piece addr len) }
{
    let mut pieces = Vec::new(alloc);
    if len > 0 {
        pieces.push(Piece { addr, len })?;
    }
    Ok(pieces)
}

/// The pieces of bytes that lie in the pages of a chain of lists.
fn chained_pieces(
    alloc: Global,
    lane: &Lane,
    number: u8,
    param: &MsgParam,
    reads: &mut Reads,
) -> Result<Vec<Piece>, CopyFault>
    requires { param.now.q ≤ 65536 }
    ensures ok { IfOk result (λ pieces. over_lane (chained_pieces number param.now) lane.now reads.old
        ≡ Some (Ok pieces.items, reads.new)) }
    ensures faulty { IfErr result (λ fault. UnlessMemory fault
        (over_lane (chained_pieces number param.now) lane.now reads.old
        ≡ Some (Err fault, reads.new))) }
    ensures appended { AppendsReads lane.now reads.old reads.new }
    ensures in_ram { IfOk result (λ pieces. AllByRecursion IsPieceOfRam pieces.items) }
    ensures few { IfOk result (λ pieces. bytes_in pieces.items ≤ 65536) }
{
    let offset = param.p % PAGE_BYTES;
    let count = page_count(offset, param.q);
    match take_pages(alloc, lane, param.p - offset, count, reads) {
        Ok(pages) => Ok(pieces(alloc, pages.as_slice(), offset, param.q)?),
        Err(WalkFault::BadPage(page)) => Err(CopyFault::Page(number, page)),
        Err(WalkFault::Memory) => Err(CopyFault::Memory),
    }
}

/// How many pages the bytes touch that begin at the offset in a page.
fn page_count(offset: u64, size: u64) -> u32
    requires offset { offset < 4096 }
    requires size { size ≤ 65536 }
    ensures count { result ≡ page_count offset size }
    ensures few { result ≤ 1024 }
{
    if size == 0 {
        return 0;
    }
    ((offset + size + PAGE_BYTES - 1) / PAGE_BYTES) as u32
}

/// The bytes that a parameter has at first: those of its pieces, or as many zeros.
pub(crate) fn take_bytes_of(
    alloc: Global,
    lane: &Lane,
    way: Way,
    pieces: &[Piece],
    reads: &mut Reads,
) -> Result<Vec<u8>, NoMemory>
    requires in_ram { AllByRecursion IsPieceOfRam pieces.now }
    requires few { bytes_in pieces.now ≤ 65536 }
    ensures ok { IfOk result (λ bytes. over_lane (bytes_of way pieces.now) lane.now reads.old
        ≡ Some (bytes.items, reads.new)) }
    ensures len { IfOk result (λ bytes. length bytes.items ≡ bytes_in pieces.now) }
    ensures appended { AppendsReads lane.now reads.old reads.new }
{
    match way {
        Way::In | Way::Inout => take_pieces(alloc, lane, pieces, reads),
        Way::Out => zeros_for(alloc, pieces),
    }
}

/// The bytes of the pieces, each piece as one read.
fn take_pieces(
    alloc: Global,
    lane: &Lane,
    pieces: &[Piece],
    reads: &mut Reads,
) -> Result<Vec<u8>, NoMemory>
    requires in_ram { AllByRecursion IsPieceOfRam pieces.now }
    requires few { bytes_in pieces.now ≤ 65536 }
    ensures ok { IfOk result (λ bytes. over_lane (take_pieces pieces.now) lane.now reads.old
        ≡ Some (bytes.items, reads.new)) }
    ensures len { IfOk result (λ bytes. length bytes.items ≡ bytes_in pieces.now) }
    ensures appended { AppendsReads lane.now reads.old reads.new }
{
    let mut bytes = Vec::with_capacity(alloc, bytes_in(pieces))?;
    for piece in pieces {
        let part = reads.take_bytes(alloc, lane, piece.addr, u64::from(piece.len))?;
        bytes.extend_from_slice(part)?;
    }
    Ok(bytes)
}

/// As many zeros as the pieces have bytes.
fn zeros_for(alloc: Global, pieces: &[Piece]) -> Result<Vec<u8>, NoMemory>
    requires { bytes_in pieces.now ≤ 65536 }
    ensures zeros { IfOk result (λ bytes. bytes.items ≡ zeros_for pieces.now) }
    ensures len { IfOk result (λ bytes. length bytes.items ≡ bytes_in pieces.now) }
{
    Ok(vec![in alloc; 0; bytes_in(pieces)]?)
}

/// How many bytes the pieces have together.
fn bytes_in(pieces: &[Piece]) -> usize
    requires { bytes_in pieces.now ≤ 65536 }
    ensures { result ≡ bytes_in pieces.now }
{
    pieces.iter().map(|piece| piece.len as usize).sum()
}
