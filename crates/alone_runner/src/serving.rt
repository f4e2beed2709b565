//! The words that read an input in a grammar, `run`, `run-binary` and `asm`: what it spells is played or printed.

ghost use Rattle.native_tas.specs.Table.{entries};
ghost use Rattle.ta_isa.specs.Spelling.{IsValid};
ghost use Rattle.trace_player.specs.Starting.{uuids_of};
ghost use Rattle.trace_text.specs.Sound.{IsSound};
ghost use Rattle.word_parts.specs.Faults.{TellsFaults};
ghost use Rattle.word_parts.specs.Word.{IsServedBy};
ghost use Rattle.alone_runner.specs.Run.{reading};
ghost use Rattle.alone_runner.specs.declared.command.Grammar.{Grammar as AnyGrammar};
ghost use Rattle.alone_runner.specs.declared.content.Content.TheVariants as content;

use crate::at_end::AtEnd;
use crate::command::Grammar;
use crate::content::{Content, read_content};
use crate::line::image_line;
use crate::play::play;
use native_tas::Natives;
use ports::Sink;
use std::alloc::Global;
use ta_isa::Image;
use trace_text::{Trace, TraceFault};
use word_parts::{InputWord, Status, answer_line, has_too_many, status_of};

/// Plays a trace, where it doesn't have too many SMC items.
fn answer_trace<K: Sink>(
    alloc: Global,
    natives: &Natives,
    trace: Trace,
    out: &mut K,
    at_end: AtEnd,
) -> Status
    requires { IsSound (uuids_of (entries natives.now)) trace }
    ensures served { (grammar : AnyGrammar) →
        IsServedBy (reading grammar (entries natives.now)) (content.Trace trace) result (K.held out.old) (K.held out.new) }
    ensures faults { TellsFaults result (K.faults out.old) (K.faults out.new) }
{
    if has_too_many(trace.items.as_slice()) {
        return Status::TooLong;
    }
    status_of(play(alloc, natives, trace, out, at_end))
}

/// Prints an image.
fn answer_image<K: Sink>(alloc: Global, natives: &Natives, image: &Image, out: &mut K) -> Status
    requires { IsValid image.now }
    ensures served { (grammar : AnyGrammar) →
        IsServedBy (reading grammar (entries natives.now)) (content.Image image.now) result (K.held out.old) (K.held out.new) }
    ensures faults { TellsFaults result (K.faults out.old) (K.faults out.new) }
{
    match image_line(alloc, image) {
        Ok(line) => answer_line(out, Status::Ok, line.as_slice()),
        Err(_) => Status::Memory,
    }
}

/// The word that reads an input in the grammar, and serves what it spells.
#[derive(Clone, Copy)]
pub struct Serve {
    pub grammar: Grammar,
    /// What becomes of a trace that was played.
    pub at_end: AtEnd,
}

impl InputWord for Serve {
    ghost use Rattle.alone_runner.specs.Plays.{Plays, SpellsTraces};
    ghost use Rattle.alone_runner.specs.Run.{WasRead, reading};

    type Content = Content;

    ghost word = { λ it built. reading it.grammar built.natives };

    ghost Shows = { λ it built input call. SpellsTraces it.grammar → Plays it.grammar built.natives input call.result call.old call.new };

    ghost IsRead = { λ it built input content. WasRead it.grammar built.natives input content };

    fn laws(self) {}

    fn read(self, alloc: Global, input: &[u8], natives: &Natives) -> Result<Content, TraceFault> {
        read_content(alloc, self.grammar, input, natives.uuids().as_slice())
    }

    fn serve<K: Sink>(
        self,
        alloc: Global,
        content: Content,
        out: &mut K,
        natives: &Natives,
    ) -> Status {
        match content {
            Content::Trace(trace) => answer_trace(alloc, natives, trace, out, self.at_end),
            Content::Image(image) => answer_image(alloc, natives, &image, out),
        }
    }
}
