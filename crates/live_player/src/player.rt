ghost use Rattle.std.specs.Prelude.{◌≡◌, ℕ, ◌++◌, List, IfOk, None, OnOk, Some, is_some, not, true};
ghost use Rattle.kernel_model.specs.Application.{Native};
ghost use Rattle.live_play.specs.Answer.{Platform, platform};
ghost use Rattle.live_play.specs.Showing.{platform_at, answer_at};
ghost use Rattle.live_player.specs.Panicking.{EndsIn, taken_as};
ghost use Rattle.live_player.specs.Standing.{HasCome, StandsAt};
ghost use Rattle.live_player.specs.Taking.{IsNext, Judges, TakesOn};
ghost use Rattle.live_player.specs.Watching.{KeepsFor, cpu_going_out};
ghost use Rattle.live_text.specs.Rules.{LiveFront, no_lines, without_history};
ghost use Rattle.live_text.specs.Scene.{IsSceneOf};
ghost use Rattle.native_tas.specs.Table.{drivers, entries};
ghost use Rattle.notify_play.specs.NotifyPlay.{Drivers};
ghost use Rattle.shown_lines.specs.Asking.{CanTell};
ghost use Rattle.trace_text.specs.Statement.{HasFewCpus};

use crate::header::Header;
use crate::stage::Stage;
use crate::taken::{Played, Taken};
use crate::watch::Watch;
use base::NoMemory;
use live_text::{LiveLine, Question, Scene, lines_stay_sound, read_line};
use native_tas::Natives;
use std::alloc::Global;
use trace_text::{LineFault, Statement};

/// A core in a conversation, behind the lines that count so far. It is booted at the first line behind the header.
#[derive(Drop)]
pub struct LivePlayer {
    /// What the rules of the next line look at.
    pub(crate) scene: Scene,
    pub(crate) stage: Stage,
}

impl LivePlayer {
    /// No line was taken yet. Takes no memory.
    pub fn new(alloc: Global) -> LivePlayer
        ensures { (natives : List Native) (ds : Drivers) → StandsAt (platform natives ds) no_lines result }
    {
        lines_stay_sound();
        LivePlayer {
            scene: Scene::new(alloc),
            stage: Stage::Header(Header::new(alloc)),
        }
    }

    /// Takes what a line says that keeps its rules, and tells the panic in which the call of its exit has ended, if it did.
    pub(crate) fn take(
        &mut self,
        alloc: Global,
        natives: &Natives,
        said: Statement,
        watch: &mut Watch,
        text: &mut Vec<u8>,
    ) -> Result<Played, NoMemory>
        requires few { HasFewCpus said }
        requires next { (lines : LiveFront)
            × IsNext (platform_at (platform (entries natives.now) (drivers natives.now)) lines) lines.told said
            × HasCome (platform (entries natives.now) (drivers natives.now)) lines self.old }
        ensures takes { (lines : LiveFront)
            → IsNext (platform_at (platform (entries natives.now) (drivers natives.now)) lines) lines.told said
            → HasCome (platform (entries natives.now) (drivers natives.now)) lines self.old
            → IfOk result (λ how. TakesOn (platform (entries natives.now) (drivers natives.now)) lines said (taken_as how)
            self.new text.old.items text.new.items) }
        ensures panic { (lines : LiveFront)
            → IsNext (platform_at (platform (entries natives.now) (drivers natives.now)) lines) lines.told said
            → HasCome (platform (entries natives.now) (drivers natives.now)) lines self.old
            → IfOk result (λ how. EndsIn (platform_at (platform (entries natives.now) (drivers natives.now)) lines) lines.told said how) }
        ensures kept { (cpu : ℕ) (lines : LiveFront)
            → IsNext (platform_at (platform (entries natives.now) (drivers natives.now)) lines) lines.told said
            → HasCome (platform (entries natives.now) (drivers natives.now)) lines self.old
            → watch.old.is_on ≡ true → cpu_going_out said ≡ Some cpu
            → IfOk result (KeepsFor (platform_at (platform (entries natives.now) (drivers natives.now)) lines) lines.told said cpu
            watch.new.kept) }
    {
        match self.stage.play(alloc, natives, &said, watch, text)? {
            Played::Done(panic) => {
                self.scene.take(&said)?;
                self.stage.add(said)?;
                Ok(Played::Done(panic))
            }
            Played::Full(copied) => Ok(Played::Full(copied)),
        }
    }

    /// Takes what a line says that keeps its rules, where exits aren't watched.
    fn take_unwatched(
        &mut self,
        alloc: Global,
        natives: &Natives,
        said: Statement,
        text: &mut Vec<u8>,
    ) -> Result<Played, NoMemory>
        requires few { HasFewCpus said }
        requires next { (lines : LiveFront)
            × IsNext (platform_at (platform (entries natives.now) (drivers natives.now)) lines) lines.told said
            × HasCome (platform (entries natives.now) (drivers natives.now)) lines self.old }
        ensures { (lines : LiveFront)
            → IsNext (platform_at (platform (entries natives.now) (drivers natives.now)) lines) lines.told said
            → HasCome (platform (entries natives.now) (drivers natives.now)) lines self.old
            → IfOk result (λ how. TakesOn (platform (entries natives.now) (drivers natives.now)) lines said (taken_as how)
            self.new text.old.items text.new.items) }
    {
        let mut unwatched = Watch::new(alloc);
        self.take(alloc, natives, said, &mut unwatched, text)
    }

    /// From here on history is off. No boot is among the lines.
    pub(crate) fn forget(&mut self)
        ensures { (on : Platform) (lines : LiveFront) → HasCome on lines self.old → lines.told.trace.boot ≡ None
            → HasCome on (without_history lines) self.new }
    {
        self.scene.forget();
        self.stage.forget();
    }

    /// Takes a line, which is given without its line feed, and appends the lines of its answer to the text, but for the one
    /// that ends it. A line that breaks a rule changes nothing. The natives are the same for all lines. At want of memory a
    /// part of a line may stand behind the text, and the player is done with.
    pub fn take_line(
        &mut self,
        alloc: Global,
        natives: &Natives,
        line: &[u8],
        text: &mut Vec<u8>,
    ) -> Result<Taken, LineFault>
        requires { (lines : LiveFront) × StandsAt (platform (entries natives.now) (drivers natives.now)) lines self.old }
        ensures { (lines : LiveFront) → StandsAt (platform (entries natives.now) (drivers natives.now)) lines self.old
            → Judges (platform (entries natives.now) (drivers natives.now)) lines line.now result
            self.new text.old.items text.new.items }
    {
        lines_stay_sound();
        match read_line(alloc, natives.uuids().as_slice(), &self.scene, line)? {
            LiveLine::Says(said) => match self.take_unwatched(alloc, natives, said, text) {
                Ok(how) => Ok(how.taken()),
                Err(NoMemory) => Err(LineFault::NoRoom),
            },
            LiveLine::HistoryOff => {
                self.forget();
                Ok(Taken::Done)
            }
        }
    }

    /// Whether a boot is among the lines.
    pub fn is_booted(&self) -> bool
        ensures { (on : Platform) (lines : LiveFront) → StandsAt on lines self.now → result ≡ is_some lines.told.trace.boot }
    {
        self.scene.is_booted()
    }

    /// What the rules of the next line look at.
    pub fn scene(&self) -> &Scene
        ensures { (on : Platform) (lines : LiveFront) → StandsAt on lines self.now → IsSceneOf result.now lines }
    {
        &self.scene
    }

    /// Appends what the core answers to a question, of which a boot stands before. Nothing changes: a core that is not booted yet
    /// is booted for the answer alone. Events are asked where history is kept.
    pub fn push_told(
        &self,
        alloc: Global,
        natives: &Natives,
        question: &Question,
        text: &mut Vec<u8>,
    ) -> Result<(), NoMemory>
        requires { (lines : LiveFront) × StandsAt (platform (entries natives.now) (drivers natives.now)) lines self.now
            × (is_some lines.told.trace.boot ≡ true) × CanTell (not lines.forgets) question.now }
        ensures { (lines : LiveFront) → StandsAt (platform (entries natives.now) (drivers natives.now)) lines self.now
            → is_some lines.told.trace.boot ≡ true → OnOk result (text.new.items ≡ text.old.items
            ++ answer_at (platform_at (platform (entries natives.now) (drivers natives.now)) lines) lines.told question.now) }
    {
        self.stage.push_told(alloc, natives, question, text)
    }
}
