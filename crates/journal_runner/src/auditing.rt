//! The word `audit`.
ghost use Rattle.std.specs.Prelude.{◌≡◌, ◌++◌, IfOk, OnOk};
ghost use Rattle.journal_runner.specs.Auditing.{verdict_line, verdict_words};

use crate::reading::read_alone;
use answer_lines::push_numbered;
use audit::{Verdict, check, read_boots_can_be_checked};
use journal_bytes::{ReadJournal, TraceFault};
use native_tas::Natives;
use ports::Sink;
use std::alloc::{AllocError, Global};
use word_parts::{InputWord, Status, answer_line};

/// Appends the words of a verdict on so many events.
fn push_verdict(line: &mut Vec<u8>, count: u64, verdict: Verdict) -> Result<(), AllocError>
    ensures { OnOk result (line.new.items ≡ line.old.items ++ verdict_words count verdict) }
{
    match verdict {
        Verdict::Legal => push_numbered(line, b"legal ", count),
        Verdict::Illegal(at) => push_numbered(line, b"illegal ", at),
    }
}

/// The line of a verdict on so many events.
fn verdict_line(alloc: Global, count: u64, verdict: Verdict) -> Result<Vec<u8>, AllocError>
    ensures { IfOk result (λ line. line.items ≡ verdict_line count verdict) }
{
    let mut line = Vec::new(alloc);
    push_verdict(&mut line, count, verdict)?;
    line.push(b'\n')?;
    Ok(line)
}

/// The word that reads the bytes of a journal ([`journal_bytes`]), behind which nothing stands, and writes the verdict on it beside the
/// applications that are built in: `legal N`, where a legal and steady history of its boot begins with its N events, or
/// `illegal AT`, where the event `AT`, counted from 0, is the first with which none begins. Bytes behind its end are
/// [`trace_text::BadKind::Item`] at the place after that of the end.
///
/// It shows that the verdict on the journal was written; and each that an input of at most 2^24 bytes spells, with nothing behind it, is
/// answered so where no port fails, or there is want of memory.
#[derive(Clone, Copy)]
pub struct Audit;

impl InputWord for Audit {
    ghost use Rattle.trace_player.specs.Starting.{uuids_of};
    ghost use Rattle.word_parts.specs.Call.{HasNoFault};
    ghost use Rattle.journal_runner.specs.Auditing.{auditing};
    ghost use Rattle.journal_runner.specs.Audits.{Audits};
    ghost use Rattle.journal_runner.specs.Reading.{WasReadAlone};

    type Content = ReadJournal;

    ghost word = { λ it built. auditing built.natives };

    ghost Shows = { λ it built input call. Audits built.natives input call.result call.old call.new (HasNoFault call) };

    ghost IsRead = { λ it built input read. WasReadAlone (uuids_of built.natives) input read };

    fn laws(self) {}

    fn read(
        self,
        alloc: Global,
        input: &[u8],
        natives: &Natives,
    ) -> Result<ReadJournal, TraceFault> {
        read_alone(alloc, input, natives.uuids().as_slice())
    }

    fn serve<K: Sink>(
        self,
        alloc: Global,
        read: ReadJournal,
        out: &mut K,
        natives: &Natives,
    ) -> Status {
        read_boots_can_be_checked();
        let Ok(verdict) = check(alloc, &read.boot, natives, &read.journal) else {
            return Status::Memory;
        };
        match verdict_line(alloc, read.journal.len(), verdict) {
            Ok(line) => answer_line(out, Status::Ok, line.as_slice()),
            Err(_) => Status::Memory,
        }
    }
}
