//! What the body of an event says.

ghost use Rattle.std.specs.Prelude.{◌≡◌, ◌≤◌, [], length, IfErr, IfOk};
ghost use Rattle.std.specs.List.{list_all};
ghost use Rattle.trace_bin.specs.declared.record_kind.RecordKind.TheVariants as trace;
ghost use Rattle.trace_bin.specs.Record.{body_len};
ghost use Rattle.trace_text.specs.declared.fault.LineFault.TheVariants.{NoRoom};
ghost use Rattle.journal_bytes.specs.Record.{is_read, read_in, regs_in};
ghost use Rattle.journal_bytes.specs.Taking.{AreListed};

use base::Sequence;
use event_journal::{Read, Regs};
use std::alloc::Global;
use trace_bin::records::{RecordKind, body_len, long_at, word_at};
use trace_text::limits::lies_in_ram;
use trace_text::{BadKind, LineFault};

/// How many bytes stand in front of those of a read: its address, and their number.
const READ_HEAD: usize = 12;

/// The eight registers behind the processor.
#[tactic(auto, unfolding(crate::specs::Record::regs_in))]
pub fn regs_in(body: &[u8]) -> Regs
    requires { 33 ≤ length body.now }
    ensures { result ≡ regs_in body.now }
{
    Regs {
        a: [
            word_at(body, 1),
            word_at(body, 5),
            word_at(body, 9),
            word_at(body, 13),
            word_at(body, 17),
            word_at(body, 21),
            word_at(body, 25),
            word_at(body, 29),
        ],
    }
}

/// The read in front of these bytes, which has so many of them.
fn read_in(alloc: Global, bytes: &[u8], len: usize) -> Result<Read, LineFault>
    requires head { 12 ≤ len }
    requires there { len ≤ length bytes.now }
    requires all { len ≡ body_len trace.Mem bytes.now }
    ensures read { IfOk result (λ read. read ≡ read_in bytes.now) }
    ensures no_room { IfErr result (λ fault. fault ≡ NoRoom) }
{
    let copied = Vec::from_slice(alloc, &bytes[READ_HEAD..len])?;
    Ok(Read {
        addr: long_at(bytes, 0),
        bytes: Sequence::of(copied),
    })
}

/// Puts so many reads behind none, and gives what stands behind them.
pub fn take_reads<'a>(
    alloc: Global,
    count: u32,
    bytes: &'a [u8],
    reads: &mut Vec<Read>,
) -> Result<&'a [u8], LineFault>
    requires { reads.old.items ≡ [] }
    ensures { AreListed result (λ rest. rest.now) count bytes.now reads.new.items }
{
    let mut rest = bytes;
    let mut left = count;
    'reads: while 0 < left {
        let Some(len) = body_len(RecordKind::Mem, rest) else {
            return Err(LineFault::Broken(BadKind::Cut));
        };
        let read = read_in(alloc, rest, len)?;
        reads.push(read)?;
        rest = &rest[len..];
        left -= 1;
    }
    Ok(rest)
}

/// Whether a read is of some bytes, all of them in RAM.
fn is_read(read: &Read) -> bool
    ensures { result ≡ is_read read.now }
{
    let len = read.bytes.len();
    0 < len && lies_in_ram(read.addr, len as u64)
}

/// Whether each of them is.
pub fn are_reads(reads: &[Read]) -> bool
    ensures { result ≡ list_all is_read reads.now }
{
    reads.iter().all(|read| is_read(read))
}
