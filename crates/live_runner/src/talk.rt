//! One side of a conversation, which answers what it hears.

ghost use Rattle.std.specs.Prelude.{◌≡◌, List, [], OnOk};
ghost use Rattle.kernel_model.specs.Application.{Native};
ghost use Rattle.line_port.specs.History.{Input};
ghost use Rattle.line_port.specs.History as history;
ghost use Rattle.live_play.specs.Answer.{platform};
ghost use Rattle.live_play.specs.Showing.{Position, first_position};
ghost use Rattle.live_runner.specs.Turns.{CanBeAsked, HasAnswered, HasShown, IsHeard, StandsIn, TakesIn, Tells};
ghost use Rattle.native_tas.specs.Table.{drivers, entries};
ghost use Rattle.notify_play.specs.NotifyPlay.{Drivers};

use crate::ending::{push_bad, push_done, push_fault, push_full, push_too_long};
use line_port::Heard;
use live_player::{LivePlayer, Taken, Watch};
use live_text::{Question, read_question};
use native_tas::Natives;
use std::alloc::{AllocError, Global};
use trace_text::{BadKind, LineFault};

/// A player, and room for a line and for its answer.
#[derive(Drop)]
pub(crate) struct Talk {
    player: LivePlayer,
    /// Exits are followed by the panics in which their calls end, and by what they change in RAM.
    is_watching: bool,
    pub(crate) line: Vec<u8>,
    pub(crate) answer: Vec<u8>,
    /// Room for what stood in RAM where an exit that is watched can write.
    watch: Watch,
}

impl Talk {
    /// Nothing was heard yet. Takes no memory.
    pub(crate) fn new(alloc: Global) -> Talk
        ensures { (natives : List Native) (ds : Drivers) → StandsIn (platform natives ds) first_position result }
    {
        Talk {
            player: LivePlayer::new(alloc),
            is_watching: false,
            line: Vec::new(alloc),
            answer: Vec::new(alloc),
            watch: Watch::new(alloc),
        }
    }

    /// How the line was taken, which asks nothing. All of its answer is made but the line that ends it.
    fn take_line(&mut self, alloc: Global, natives: &Natives) -> Result<Taken, LineFault>
        requires none { self.old.answer.items ≡ [] }
        requires stands { (here : Position) × StandsIn (platform (entries natives.now) (drivers natives.now)) here self.old }
        ensures { (here : Position) → StandsIn (platform (entries natives.now) (drivers natives.now)) here self.old
            → TakesIn (platform (entries natives.now) (drivers natives.now)) here self.old.line.items result self.new }
    {
        let line = self.line.as_slice();
        if self.is_watching {
            self.player
                .take_watched_line(alloc, natives, line, &mut self.watch, &mut self.answer)
        } else {
            self.player
                .take_line(alloc, natives, line, &mut self.answer)
        }
    }

    /// Makes the answer to the line, which asks nothing, where none is made yet.
    fn answer_plain(&mut self, alloc: Global, natives: &Natives) -> Result<(), AllocError>
        requires none { self.old.answer.items ≡ [] }
        requires stands { (here : Position) × StandsIn (platform (entries natives.now) (drivers natives.now)) here self.old }
        ensures { (here : Position) → StandsIn (platform (entries natives.now) (drivers natives.now)) here self.old
            → OnOk result (HasAnswered (platform (entries natives.now) (drivers natives.now)) here self.old.line.items self.new) }
    {
        match self.take_line(alloc, natives) {
            Ok(Taken::Done) => push_done(&mut self.answer),
            Ok(Taken::Full(copied)) => push_full(&mut self.answer, copied),
            Err(fault) => push_fault(&mut self.answer, fault),
        }
    }

    /// Does what a question asks, and makes the lines of its answer, where none is made yet.
    fn tell(
        &mut self,
        alloc: Global,
        natives: &Natives,
        question: &Question,
    ) -> Result<(), AllocError>
        requires none { self.old.answer.items ≡ [] }
        requires stands { (here : Position) × StandsIn (platform (entries natives.now) (drivers natives.now)) here self.old
            × CanBeAsked here.lines question.now }
        ensures { (here : Position) → StandsIn (platform (entries natives.now) (drivers natives.now)) here self.old
            → CanBeAsked here.lines question.now
            → OnOk result (Tells (platform (entries natives.now) (drivers natives.now)) here question.now self.new) }
    {
        match question {
            Question::Watch(is_on) => {
                self.is_watching = *is_on;
                Ok(())
            }
            Question::State
            | Question::Session(_)
            | Question::Buffer(_)
            | Question::Events { .. } => self
                .player
                .push_told(alloc, natives, question, &mut self.answer)
                .map_err(|_| AllocError),
        }
    }

    /// Makes the answer to the line, where none is made yet.
    fn answer_line(&mut self, alloc: Global, natives: &Natives) -> Result<(), AllocError>
        requires none { self.old.answer.items ≡ [] }
        requires stands { (here : Position) × StandsIn (platform (entries natives.now) (drivers natives.now)) here self.old }
        ensures { (here : Position) → StandsIn (platform (entries natives.now) (drivers natives.now)) here self.old
            → OnOk result (HasShown (platform (entries natives.now) (drivers natives.now)) here
            (history.Line self.old.line.items) self.new) }
    {
        match read_question(self.player.scene(), self.line.as_slice()) {
            Some(Ok(question)) => {
                self.tell(alloc, natives, &question)?;
                push_done(&mut self.answer)
            }
            Some(Err(fault)) => push_fault(&mut self.answer, fault),
            None => self.answer_plain(alloc, natives),
        }
    }

    /// Makes the answer to what was heard. There is none to an end.
    pub(crate) fn answer(
        &mut self,
        alloc: Global,
        natives: &Natives,
        heard: Heard,
    ) -> Result<(), AllocError>
        requires { (here : Position) × StandsIn (platform (entries natives.now) (drivers natives.now)) here self.old }
        ensures { (here : Position) (input : Input)
            → StandsIn (platform (entries natives.now) (drivers natives.now)) here self.old
            → IsHeard heard self.old.line.items input
            → OnOk result (HasShown (platform (entries natives.now) (drivers natives.now)) here input self.new) }
    {
        self.answer.clear();
        match heard {
            Heard::Line => self.answer_line(alloc, natives),
            Heard::Long => push_too_long(&mut self.answer),
            Heard::Cut => push_bad(&mut self.answer, BadKind::Cut),
            Heard::End | Heard::Failed | Heard::Memory => Ok(()),
        }
    }
}
