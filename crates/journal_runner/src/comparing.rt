//! The word `compare`.
ghost use Rattle.std.specs.Prelude.{◌≡◌, ◌++◌, IfOk, OnOk};
ghost use Rattle.journal_runner.specs.Comparing.{compared_line, compared_words};

use crate::reading::{ReadPair, read_pair};
use answer_lines::push_numbered;
use audit::read_boots_can_be_checked;
use compare_model::{Compared, Subject};
use journal_bytes::TraceFault;
use native_tas::Natives;
use ports::Sink;
use session_compare::compare_on;
use std::alloc::{AllocError, Global};
use word_parts::{InputWord, Status, answer_line};

/// Appends the words of what two journals show.
fn push_compared(line: &mut Vec<u8>, compared: Compared) -> Result<(), AllocError>
    ensures { OnOk result (line.new.items ≡ line.old.items ++ compared_words compared) }
{
    match compared {
        Compared::Illegal { journal, at } => {
            push_numbered(line, b"illegal ", u64::from(journal))?;
            push_numbered(line, b" ", at)
        }
        Compared::Absent(journal) => push_numbered(line, b"absent ", u64::from(journal)),
        Compared::Other => line.extend_from_slice(b"other"),
        Compared::Events(at) => push_numbered(line, b"events ", at),
        Compared::Same(count) => push_numbered(line, b"same ", count),
    }
}

/// The line of what two journals show.
fn compared_line(alloc: Global, compared: Compared) -> Result<Vec<u8>, AllocError>
    ensures { IfOk result (λ line. line.items ≡ compared_line compared) }
{
    let mut line = Vec::new(alloc);
    push_compared(&mut line, compared)?;
    line.push(b'\n')?;
    Ok(line)
}

/// The word that reads the bytes of two journals ([`journal_bytes`]), the second right behind the end of the first, and writes what they
/// show of a session, or of the group of sessions that share one instance, beside the applications that are built in: the first event
/// of one of them that can't be, as `illegal J AT`; or that the number stands for no session there whose application has an instance
/// for each, or the UUID for no application whose sessions share one, as `absent J`; or that the applications or the keys differ, as
/// `other`; or the first of the events of the session or of the group that differs, as `events N`, counted from 0; or else how many
/// replies it was given, as `same N`. Places go on counting in the second journal. Bytes behind its end are
/// [`trace_text::BadKind::Item`] at the place after that of the end.
///
/// It shows that, where both journals show the same of the session or of the group, it was answered the same in both; and each two that
/// an input of at most 2^24 bytes spells, with nothing behind them, are answered so where no port fails, or there is want of memory.
#[derive(Clone, Copy)]
pub struct Compare {
    pub subject: Subject,
}

impl InputWord for Compare {
    ghost use Rattle.trace_player.specs.Starting.{uuids_of};
    ghost use Rattle.word_parts.specs.Call.{HasNoFault};
    ghost use Rattle.journal_runner.specs.Compares.{Compares};
    ghost use Rattle.journal_runner.specs.Comparing.{comparing};
    ghost use Rattle.journal_runner.specs.Reading.{WasReadPair};

    type Content = ReadPair;

    ghost word = { λ it built. comparing built.natives it.subject };

    ghost Shows = { λ it built input call.
        Compares built.natives it.subject input call.result call.old call.new (HasNoFault call) };

    ghost IsRead = { λ it built input read. WasReadPair (uuids_of built.natives) input read };

    fn laws(self) {}

    fn read(self, alloc: Global, input: &[u8], natives: &Natives) -> Result<ReadPair, TraceFault> {
        read_pair(alloc, input, natives.uuids().as_slice())
    }

    fn serve<K: Sink>(
        self,
        alloc: Global,
        read: ReadPair,
        out: &mut K,
        natives: &Natives,
    ) -> Status {
        read_boots_can_be_checked();
        let Ok(compared) = compare_on(alloc, &read.one, &read.two, natives, self.subject) else {
            return Status::Memory;
        };
        match compared_line(alloc, compared) {
            Ok(line) => answer_line(out, Status::Ok, line.as_slice()),
            Err(_) => Status::Memory,
        }
    }
}
