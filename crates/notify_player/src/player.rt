//! A core with its processors and a desk of signals, which are moved step by step.

ghost use Rattle.std.specs.Prelude.{◌≡◌, ℕ, [], All, Err, IfErr, IfOk};
ghost use Rattle.kernel_model.specs.Application.{Booted};
ghost use Rattle.native_tas.specs.Table.{drivers};
ghost use Rattle.notif.specs.Desk.{IsDeskOf, new_desk};
ghost use Rattle.notify_play.specs.NotifyPlay.{Drivers, NotifyPlay, after_item, first_notify_play, goes_out};
ghost use Rattle.notify_text.specs.Sound.{IsSoundSignal};
ghost use Rattle.play_model.specs.Play.{Play};
ghost use Rattle.trace_player.specs.Items.{panic_at_exit};
ghost use Rattle.trace_player.specs.Playing.{CanBeTaken, CanBeTold, terms_in};
ghost use Rattle.trace_player.specs.Position.{StandsAt, position_of};
ghost use Rattle.notify_player.specs.Playing.{Follows, HasGone, IsPlayedTo, position_in, without_panic};
ghost use Rattle.notify_player.specs.Signalling.{behind_at, front_at, signalled_by};

use crate::entered::asked_by;
use crate::writing::write_result;
use core_machine::{Machine, Told, machines_stand};
use desk_answers::answer;
use kernel_state::journals_stay_legal;
use native_tas::Natives;
use notif::Desk;
use notify_text::Signal;
use std::alloc::Global;
use trace_player::Player;
use trace_text::Item;
use word_parts::Stop;

/// A player, and the desk that answers above its core.
#[derive(Drop)]
pub struct NotifyPlayer {
    pub(crate) player: Player,
    pub(crate) desk: Desk,
}

impl NotifyPlayer {
    /// Before any entry: nothing was asked of the desk.
    pub(crate) fn new(player: Player, desk: Desk) -> NotifyPlayer
        ensures stands { (boot : Booted) (ds : Drivers) (play : Play) → StandsAt boot (position_of play) player → play.history ≡ []
            → desk ≡ new_desk ds → IsPlayedTo boot ds (first_notify_play boot play) result }
        ensures player { result.player ≡ player }
    {
        NotifyPlayer { player, desk }
    }

    /// The hardware signals the values that stand at the front of these and behind so many items. Gives those behind them.
    pub fn take_signals<'a>(&mut self, at: usize, signals: &'a [Signal]) -> &'a [Signal]
        requires { (items : ℕ) × All (IsSoundSignal items) signals.now }
        ensures rest { result.now ≡ behind_at at signals.now }
        ensures signals { (boot : Booted) (ds : Drivers) (told : NotifyPlay) → IsPlayedTo boot ds told self.old
            → IsPlayedTo boot ds (signalled_by (front_at at signals.now) told) self.new }
        ensures terms { terms_in self.new.player ≡ terms_in self.old.player }
    {
        let mut rest = signals;
        while let [first, behind @ ..] = rest {
            if first.at != at {
                break;
            }
            self.desk.signal(first.value);
            rest = behind;
        }
        rest
    }

    /// The core with its processors.
    pub fn machine(&self) -> &Machine
        ensures { result.now ≡ self.now.player.machine }
    {
        self.player.machine()
    }

    /// A processor that has gone out is told the core's answer, or the desk's in its place, once the desk has written what it
    /// writes.
    pub(crate) fn answer(
        &mut self,
        natives: &Natives,
        answered: Told,
        lines: &mut Vec<u8>,
    ) -> Result<(), Stop>
        requires told { CanBeTold self.old.player.machine answered.cpu }
        requires desk { IsDeskOf (drivers natives.now) self.old.desk }
        ensures follows { (boot : Booted) (told : NotifyPlay) → HasGone boot (drivers natives.now) told answered self.old
            → Follows boot (drivers natives.now) told (goes_out boot (drivers natives.now) answered.cpu told) result self.new
            lines.old.items lines.new.items }
        ensures memory { IfErr result (λ stop. stop ≡ Stop.Memory) }
        ensures terms { terms_in self.new.player ≡ terms_in self.old.player }
    {
        machines_stand();
        journals_stay_legal();
        let Told { cpu, regs } = answered;
        let entry = self.player.machine().core().last_entry(cpu);
        let asked = asked_by(entry, regs.a[0]);
        let told = answer(&mut self.desk, natives, &asked.caller, regs, asked.duty);
        write_result(&mut self.player, cpu, told.result);
        self.player.tell(cpu, told.regs, lines)
    }

    /// Plays an item, and appends what it prints to the lines. Gives the code of the panic in which the call has ended of a processor
    /// that goes out by it, if it did. The natives are those of the desk's `new`. Where an entry is refused, nothing is printed, and
    /// the player is as it was; at want of memory a part of a line may stand behind the lines.
    pub fn play_item(
        &mut self,
        alloc: Global,
        natives: &Natives,
        item: &Item,
        lines: &mut Vec<u8>,
    ) -> Result<Option<u32>, Stop>
        requires can { CanBeTaken self.old.player.machine item.now }
        requires desk { IsDeskOf (drivers natives.now) self.old.desk }
        ensures follows { (boot : Booted) (told : NotifyPlay) → IsPlayedTo boot (drivers natives.now) told self.old
            → Follows boot (drivers natives.now) told (after_item boot (drivers natives.now) item.now told)
            (without_panic result) self.new lines.old.items lines.new.items }
        ensures panic { (boot : Booted) (told : NotifyPlay) → IsPlayedTo boot (drivers natives.now) told self.old
            → IfOk result (λ panic. panic ≡ panic_at_exit boot (position_in told) item.now) }
        ensures never_fails { result ≡ Err Stop.Failed → ⊥ }
        ensures terms { terms_in self.new.player ≡ terms_in self.old.player }
    {
        let out = self.player.begin_item(alloc, item, lines)?;
        match out {
            Some(exit) => {
                self.answer(natives, exit.answer, lines)?;
                Ok(exit.panic)
            }
            None => Ok(None),
        }
    }
}
