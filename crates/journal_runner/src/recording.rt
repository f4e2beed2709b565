//! The word `record`.
ghost use Rattle.native_tas.specs.Table.{entries};
ghost use Rattle.trace_player.specs.Starting.{trace_of, uuids_of};
ghost use Rattle.trace_text.specs.Sound.{IsSound};
ghost use Rattle.word_parts.specs.Faults.{TellsFaults};
ghost use Rattle.word_parts.specs.Word.{IsDone};
ghost use Rattle.journal_runner.specs.Recorded.{IsSpelledIfPlayed};
ghost use Rattle.journal_runner.specs.Recording.{recording};

use crate::playing::record_play;
use native_tas::Natives;
use ports::Sink;
use std::alloc::Global;
use ta_isa::Boot;
use trace_text::{Fill, Item, Trace, TraceFault, read_trace};
use word_parts::{InputWord, Status, answer_line, has_too_many};

/// Plays the trace of this boot, and writes its journal.
fn record_booted<K: Sink>(
    alloc: Global,
    natives: &Natives,
    boot: Boot,
    fills: &[Fill],
    items: &[Item],
    out: &mut K,
) -> Status
    requires { IsSound (uuids_of (entries natives.now)) (trace_of boot fills.now items.now) }
    ensures done { IsDone (recording (entries natives.now)) (trace_of boot fills.now items.now) result (K.held out.old) (K.held out.new) }
    ensures spelled { IsSpelledIfPlayed (entries natives.now) (trace_of boot fills.now items.now) result (K.held out.old) (K.held out.new) }
    ensures faults { TellsFaults result (K.faults out.old) (K.faults out.new) }
{
    match record_play(alloc, natives, boot, fills, items) {
        Ok(recorded) => answer_line(out, recorded.status, recorded.bytes.as_slice()),
        Err(_) => Status::Memory,
    }
}

/// The word that reads a trace as text, plays it as the word `run` does, and writes the bytes of its journal ([`journal_bytes`]) in
/// place of its lines: its boot, and all events of its play, or those before an entry that was refused, at which the status is
/// [`Status::TooLong`]. Of a trace without a boot nothing is written.
///
/// It shows the play whose journal was written, which is true to the written kernel; what was written is audited as legal.
#[derive(Clone, Copy)]
pub struct Record;

impl InputWord for Record {
    ghost use Rattle.journal_runner.specs.Recording.{WasRead, recording};
    ghost use Rattle.journal_runner.specs.Records.{Records};

    type Content = Trace;

    ghost word = { λ it built. recording built.natives };

    ghost Shows = { λ it built input call. Records built.natives input call.result call.old call.new };

    ghost IsRead = { λ it built input trace. WasRead built.natives input trace };

    fn laws(self) {}

    fn read(self, alloc: Global, input: &[u8], natives: &Natives) -> Result<Trace, TraceFault> {
        read_trace(alloc, input, natives.uuids().as_slice())
    }

    fn serve<K: Sink>(self, alloc: Global, trace: Trace, out: &mut K, natives: &Natives) -> Status {
        if has_too_many(trace.items.as_slice()) {
            return Status::TooLong;
        }
        let Trace { boot, fills, items } = trace;
        match boot {
            Some(boot) => record_booted(
                alloc,
                natives,
                boot,
                fills.as_slice(),
                items.as_slice(),
                out,
            ),
            None => Status::Ok,
        }
    }
}
