//! The line that sums up the play of a made trace.

ghost use Rattle.std.specs.Prelude.{◌≡◌, ◌+◌, ◌<◌, ◌^◌, if◌then◌else◌, ◌∷◌, [], ◌++◌, codes, IfOk, OnOk};
ghost use Rattle.std.specs.Fmt.{decimal};
ghost use Rattle.hex.specs.Hex.{encode_lower};
ghost use Rattle.alone_runner.specs.Counts.{AreBelow, AreCounts, counts_text, is_of_kind, line_with, with_answer};

use answer_lines::{push_hex, push_numbered};
use smc_abi::{ERESUME, ETHREAD_LIMIT, OK, UNKNOWN_FUNCTION};
use std::alloc::{AllocError, Global};

/// The upper half of each answer that asks the normal world for something.
const RPC_PREFIX: u32 = 0xffff;

/// A kind of answer that is counted.
#[derive(Clone, Copy)]
enum AnswerKind {
    /// `OPTEE_SMC_RETURN_OK`.
    Ok,
    /// `OPTEE_SMC_RETURN_ETHREAD_LIMIT`.
    Limit,
    /// `OPTEE_SMC_RETURN_ERESUME`.
    Resume,
    /// It asks the normal world for something. All ones are the answer to an unknown function.
    Rpc,
}

impl AnswerKind {
    /// Whether an answer with this a0 is of the kind.
    fn has(self, a0: u32) -> bool
        ensures { result ≡ is_of_kind self a0 }
    {
        match self {
            AnswerKind::Ok => a0 == OK,
            AnswerKind::Limit => a0 == ETHREAD_LIMIT,
            AnswerKind::Resume => a0 == ERESUME,
            AnswerKind::Rpc => a0 / 0x1_0000 == RPC_PREFIX && a0 != UNKNOWN_FUNCTION,
        }
    }
}

/// How many answers were of each kind.
#[derive(Clone, Copy)]
pub struct AnswerCounts {
    pub ok: usize,
    pub limit: usize,
    pub resume: usize,
    pub rpc: usize,
}

/// One more, if that is so.
fn more_if(is_so: bool, count: usize) -> usize
    requires { count < 2 ^ 63 }
    ensures { result ≡ (if is_so then count + 1 else count) }
{
    if is_so { count + 1 } else { count }
}

impl AnswerCounts {
    /// Those of no answers.
    pub fn none() -> AnswerCounts
        ensures counts { AreCounts [] result }
        ensures few { AreBelow 1 result }
    {
        AnswerCounts {
            ok: 0,
            limit: 0,
            resume: 0,
            rpc: 0,
        }
    }

    /// Counts an answer with this a0.
    pub fn add(&mut self, a0: u32)
        requires { AreBelow (2 ^ 63) self.old }
        ensures { self.new ≡ with_answer a0 self.old }
    {
        self.ok = more_if(AnswerKind::Ok.has(a0), self.ok);
        self.limit = more_if(AnswerKind::Limit.has(a0), self.limit);
        self.resume = more_if(AnswerKind::Resume.has(a0), self.resume);
        self.rpc = more_if(AnswerKind::Rpc.has(a0), self.rpc);
    }
}

/// Appends the counts of all four kinds.
fn push_counts(line: &mut Vec<u8>, counts: &AnswerCounts) -> Result<(), AllocError>
    ensures { OnOk result (line.new.items ≡ line.old.items ++ counts_text counts.now) }
{
    push_numbered(line, b" ok ", counts.ok as u64)?;
    push_numbered(line, b" limit ", counts.limit as u64)?;
    push_numbered(line, b" resume ", counts.resume as u64)?;
    push_numbered(line, b" rpc ", counts.rpc as u64)
}

/// Appends the words that ask for the made trace.
fn push_words(line: &mut Vec<u8>, seed: u64, count: u32) -> Result<(), AllocError>
    ensures { OnOk result (line.new.items ≡ line.old.items ++ codes "work " ++ decimal seed ++ 32 ∷ decimal count) }
{
    push_numbered(line, b"work ", seed)?;
    push_numbered(line, b" ", u64::from(count))
}

/// Appends a digest, which ends the line.
fn push_digest(alloc: Global, line: &mut Vec<u8>, digest: &[u8; 32]) -> Result<(), AllocError>
    ensures { OnOk result (line.new.items ≡ line.old.items ++ codes " sha256 " ++ encode_lower digest.now ++ 10 ∷ []) }
{
    line.extend_from_slice(b" sha256 ")?;
    push_hex(alloc, line, digest)
}

/// The summary of a play, by the counts of its answers and the digest of its lines.
pub fn summary_line(
    alloc: Global,
    seed: u64,
    count: u32,
    counts: &AnswerCounts,
    digest: &[u8; 32],
) -> Result<Vec<u8>, AllocError>
    ensures { IfOk result (λ line. line.items ≡ line_with seed count counts.now digest.now) }
{
    let mut line = Vec::new(alloc);
    push_words(&mut line, seed, count)?;
    push_counts(&mut line, counts)?;
    push_digest(alloc, &mut line, digest)?;
    Ok(line)
}
