ghost use Rattle.std.specs.Prelude.{◌≡◌, ◌+◌, ◌*◌, ◌<◌, ◌≤◌, length, sum_by, IsTrue, IfOk, Some, slice_get};
ghost use Rattle.std.specs.List.{AllByRecursion, list_all};
ghost use Rattle.ns_ram.specs.Pages.{is_page};
ghost use Rattle.shm_registry.specs.Pieces.{IsPieceOfRam, pieces_from};

use base::NoMemory;
use ns_ram::PAGE_BYTES;
use std::alloc::Global;

/// A part of a buffer that lies in RAM in one.
#[derive(Clone, Copy)]
pub struct Piece {
    /// The address of the first byte.
    pub addr: u64,
    /// The number of bytes.
    pub len: u32,
}

/// The pieces of the `size` bytes that begin `start` bytes behind the first byte of the first page. The
/// bytes go through the pages in their order, with one piece for each page that they touch.
pub fn pieces(alloc: Global, pages: &[u64], start: u64, size: u64) -> Result<Vec<Piece>, NoMemory>
    requires pages { IsTrue (list_all is_page pages.now) }
    requires few { length pages.now ≤ 1024 }
    requires enough { 0 < size → start + size ≤ 4096 * length pages.now }
    ensures pieces { IfOk result (λ pieces. pieces.items ≡ pieces_from pages.now start size) }
    ensures in_ram { IfOk result (λ pieces. AllByRecursion IsPieceOfRam pieces.items) }
    ensures size { IfOk result (λ pieces. sum_by (λ piece. piece.len) pieces.items ≡ size) }
{
    let mut pieces = Vec::new(alloc);
    if size == 0 {
        return Ok(pieces);
    }
    let mut offset = start % PAGE_BYTES;
    let mut left = size;
    let others = &pages[(start / PAGE_BYTES) as usize..];
    for page in others {
        if left == 0 {
            break;
        }
        let len = left.min(PAGE_BYTES - offset);
        pieces.push(Piece {
            addr: *page + offset,
            len: len as u32,
        })?;
        left -= len;
        offset = 0;
    }
    Ok(pieces)
}

/// The first of the pieces of the `size` bytes, of which there are some.
pub(crate) fn first_piece(pages: &[u64], start: u64, size: u64) -> Piece
    requires pages { IsTrue (list_all is_page pages.now) }
    requires some { 0 < size }
    requires enough { start + size ≤ 4096 * length pages.now }
    ensures piece { Some result ≡ slice_get (pieces_from pages.now start size) 0 }
    ensures in_ram { IsPieceOfRam result }
{
    let page = pages[(start / PAGE_BYTES) as usize];
    let in_page = start % PAGE_BYTES;
    let len = size.min(PAGE_BYTES - in_page);
    Piece {
        addr: page + in_page,
        len: len as u32,
    }
}
