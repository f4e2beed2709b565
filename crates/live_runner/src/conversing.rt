//! A conversation to its end.

ghost use Rattle.std.specs.Prelude.{◌≡◌, Some, None};
ghost use Rattle.line_port.specs.Faults.{faults_behind};
ghost use Rattle.live_play.specs.Answer.{platform};
ghost use Rattle.live_play.specs.Showing.{Position};
ghost use Rattle.live_runner.specs.Talks.{HearsNoQuestion, TalksWithQuestions, Talks};
ghost use Rattle.live_runner.specs.Turns.{EndsAs, IsEndOf, StandsIn, Turns, end_of};
ghost use Rattle.native_tas.specs.Table.{drivers, entries};

use crate::talk::Talk;
use line_port::{Finish, Port};
use live_play::{history_off_forgets_alone, plain_conversations_are_as_before, turns_are_told};
use native_tas::Natives;
use std::alloc::Global;

/// One turn: a line is heard, and its answer said.
fn take_turn<P: Port>(
    alloc: Global,
    natives: &Natives,
    talk: &mut Talk,
    port: &mut P,
) -> Result<(), Finish>
    requires open_there { P.finish port.old ≡ None }
    requires stands { (here : Position) × StandsIn (platform (entries natives.now) (drivers natives.now)) here talk.old }
    ensures turn { (here : Position) → StandsIn (platform (entries natives.now) (drivers natives.now)) here talk.old
        → Turns (platform (entries natives.now) (drivers natives.now)) here (P.told port.old) (P.told port.new) result
        talk.new }
    ensures ends { EndsAs result (P.finish port.new) }
    ensures faults { P.faults port.new ≡ faults_behind (end_of result) (P.faults port.old) }
{
    let heard = port.hear(&mut talk.line);
    if let Some(finish) = heard.finish() {
        return Err(finish);
    }
    let Ok(()) = talk.answer(alloc, natives, heard) else {
        return Err(Finish::Memory);
    };
    let said = port.say(talk.answer.as_slice());
    match said.finish() {
        None => Ok(()),
        Some(end) => Err(end),
    }
}

/// Holds a conversation with a core to its end, beside the applications and the drivers that are built in: each line is
/// answered before the next one is heard. Want of memory may come at any time; what was heard last has then had no answer. As
/// many turns as there are numbers of 64 bits count as want of memory too.
pub fn live<P: Port>(alloc: Global, natives: &Natives, port: &mut P) -> Finish
    requires { P.finish port.old ≡ None }

    // ---- The history grew by a conversation from the first line on, in which lines may ask. Of the lines of a trace with signals, as of
    // the last one where its answer was said in part, all returns are those of one play, whose history is legal, with the kernel's own
    // answers, behind each turn. Where the port tells these, what is left to be heard has lost its lines, and what was written has grown by
    // their answers.
    ensures shows { TalksWithQuestions (platform (entries natives.now) (drivers natives.now)) (P.told port.old) (P.told port.new) result }

    // ---- Where no line asks or turns history off, the history grew by a conversation from the first line on, as it does without lines that ask; and
    // behind each of its turns, as behind an answer that was said in part, all returns are those of one play, whose history is
    // legal, with the kernel's own answers.
    ensures talks { HearsNoQuestion (P.told port.old).history (P.told port.new).history →
        Talks (platform (entries natives.now) (drivers natives.now)) (P.told port.old).history (P.told port.new).history result }

    // ---- The port has come to this end; but want of memory may come before its end.
    ensures ends { IsEndOf result (P.finish port.new) }

    // ---- A fault of reading or of writing is answered only where the port counted it, and no other was counted.
    ensures faults { P.faults port.new ≡ faults_behind (Some result) (P.faults port.old) }
{
    plain_conversations_are_as_before();
    history_off_forgets_alone();
    turns_are_told();
    let mut talk = Talk::new(alloc);
    for _ in 0..u64::MAX {
        if let Err(finish) = take_turn(alloc, natives, &mut talk, port) {
            return finish;
        }
    }
    Finish::Memory
}
