//! Exits that are watched: the panics in which their calls end, and what they change in their processor's RAM.

ghost use Rattle.std.specs.Prelude.{◌≡◌, ℕ, ◌++◌, List, IfOk, OnOk, length};
ghost use Rattle.live_play.specs.Answer.{Platform, platform};
ghost use Rattle.live_play.specs.Changes.{changes, text_of_changes};
ghost use Rattle.live_play.specs.Showing.{cpu_out_by, lane_at, platform_at};
ghost use Rattle.live_player.specs.Watching.{CanWatch, Watches, WatchesOn, cpu_going_out};
ghost use Rattle.live_player.specs.Standing.{HasCome, IsOpen, IsPlayedBehind, StandsAt};
ghost use Rattle.live_player.specs.Taking.{IsNext};
ghost use Rattle.live_text.specs.Rules.{LiveFront};
ghost use Rattle.native_tas.specs.Table.{drivers, entries};
ghost use Rattle.notify_text.specs.Rules.{NotifyFront};
ghost use Rattle.page_set.specs.Keeping.{AreKept};
ghost use Rattle.trace_player.specs.Playing.{HasLane};
ghost use Rattle.trace_text.specs.Statement.{HasFewCpus};

use crate::player::LivePlayer;
use crate::stage::Stage;
use crate::taken::{Played, Taken};
use crate::watch::Watch;
use base::NoMemory;
use live_text::{LiveLine, lines_stay_sound, read_line};
use native_tas::Natives;
use notify_player::NotifyPlayer;
use page_set::KeptPages;
use shown_lines::{push_changes, push_panic};
use std::alloc::{AllocError, Global};
use trace_text::{Item, LineFault, Statement};

/// The processor that goes out by an item, where one does.
fn cpu_out_by(item: &Item) -> Option<u8>
    ensures { result ≡ cpu_out_by item.now }
{
    match item {
        Item::Smc { cpu, .. } | Item::Leave { cpu } => Some(*cpu),
        Item::Enter { .. } | Item::Write { .. } | Item::Show { .. } => None,
    }
}

/// The processor that goes out by what a line says, where one does.
pub(crate) fn cpu_going_out(said: &Statement) -> Option<u8>
    ensures { result ≡ cpu_going_out said.now }
{
    match said {
        Statement::Item(item) => cpu_out_by(item),
        Statement::Blank
        | Statement::Boot(_)
        | Statement::App(_)
        | Statement::Fill(_)
        | Statement::Key(_)
        | Statement::Signal(_) => None,
    }
}

/// All of the RAM that a processor of a player sees.
fn ram_of(player: &NotifyPlayer, cpu: u8) -> &[u8]
    requires { HasLane player.now.player.machine cpu }
    ensures lane { (on : Platform) (lines : NotifyFront) → IsPlayedBehind on lines player.now
        → result.now ≡ lane_at on lines cpu }
    ensures len { length result.now ≡ 0x400000 }
{
    player.machine().ram(cpu)
}

impl Stage {
    /// Appends what is other in a processor's RAM than it was where it was kept, where an item has come or a signal.
    pub(crate) fn push_changes(
        &self,
        alloc: Global,
        cpu: u8,
        kept: &KeptPages,
        text: &mut Vec<u8>,
    ) -> Result<(), AllocError>
        requires { (on : Platform) × (lines : NotifyFront) × (before : List ℕ) × CanWatch on lines cpu self.now
            × AreKept kept.now before (lane_at on lines cpu) }
        ensures { (on : Platform) (lines : NotifyFront) (before : List ℕ) → CanWatch on lines cpu self.now → (IsOpen lines → ⊥)
            → AreKept kept.now before (lane_at on lines cpu)
            → OnOk result (text.new.items
            ≡ text.old.items ++ text_of_changes cpu (changes before (lane_at on lines cpu))) }
    {
        match self {
            Stage::Core(player) => push_changes(alloc, text, cpu, kept, ram_of(player, cpu)),
            Stage::Header(_) => Ok(()),
        }
    }
}

impl LivePlayer {
    /// Takes a line, as `take_line` does, and appends behind the line of an exit the panic in which its call has ended, if it did,
    /// and what it has changed in its processor's RAM. `watch` is room for what that was before where the exit can write.
    pub fn take_watched_line(
        &mut self,
        alloc: Global,
        natives: &Natives,
        line: &[u8],
        watch: &mut Watch,
        text: &mut Vec<u8>,
    ) -> Result<Taken, LineFault>
        requires { (lines : LiveFront) × StandsAt (platform (entries natives.now) (drivers natives.now)) lines self.old }
        ensures { (lines : LiveFront) → StandsAt (platform (entries natives.now) (drivers natives.now)) lines self.old
            → Watches (platform (entries natives.now) (drivers natives.now)) lines line.now result
            self.new text.old.items text.new.items }
    {
        lines_stay_sound();
        match read_line(alloc, natives.uuids().as_slice(), &self.scene, line)? {
            LiveLine::Says(said) => match self.take_watched(alloc, natives, said, watch, text) {
                Ok(taken) => Ok(taken),
                Err(NoMemory) => Err(LineFault::NoRoom),
            },
            LiveLine::HistoryOff => {
                self.forget();
                Ok(Taken::Done)
            }
        }
    }

    /// Takes what a line says that keeps its rules, where exits are watched.
    fn take_watched(
        &mut self,
        alloc: Global,
        natives: &Natives,
        said: Statement,
        watch: &mut Watch,
        text: &mut Vec<u8>,
    ) -> Result<Taken, NoMemory>
        requires few { HasFewCpus said }
        requires next { (lines : LiveFront)
            × IsNext (platform_at (platform (entries natives.now) (drivers natives.now)) lines) lines.told said
            × HasCome (platform (entries natives.now) (drivers natives.now)) lines self.old }
        ensures { (lines : LiveFront)
            → IsNext (platform_at (platform (entries natives.now) (drivers natives.now)) lines) lines.told said
            → HasCome (platform (entries natives.now) (drivers natives.now)) lines self.old
            → IfOk result (λ taken. WatchesOn (platform (entries natives.now) (drivers natives.now)) lines said taken
            self.new text.old.items text.new.items) }
    {
        let Some(cpu) = cpu_going_out(&said) else {
            return Ok(self.take(alloc, natives, said, watch, text)?.taken());
        };
        watch.is_on = true;
        match self.take(alloc, natives, said, watch, text)? {
            Played::Done(panic) => {
                push_panic(alloc, text, panic)?;
                self.stage.push_changes(alloc, cpu, &watch.kept, text)?;
                Ok(Taken::Done)
            }
            Played::Full(copied) => Ok(Taken::Full(copied)),
        }
    }
}
