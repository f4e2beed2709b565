//! Items whose exits are watched: what they can change in RAM is kept before.

ghost use Rattle.std.specs.Prelude.{◌≡◌, ℕ, ◌≤◌, IfOk, IfSome, OnOk, Err, Some, length};
ghost use Rattle.kernel_model.specs.Application.{Booted};
ghost use Rattle.native_tas.specs.Table.{drivers};
ghost use Rattle.notif.specs.Desk.{IsDeskOf};
ghost use Rattle.notify_play.specs.NotifyPlay.{Drivers, NotifyPlay, after_item, goes_out};
ghost use Rattle.desk_answers.specs.Duties.{duty_in};
ghost use Rattle.page_set.specs.Keeping.{AreKept};
ghost use Rattle.page_set.specs.Pages.{IsWithin, StaysElsewhere};
ghost use Rattle.play_model.specs.Play.{lane_of};
ghost use Rattle.trace_player.specs.Items.{Begins, goes_out_by, panic_at_exit};
ghost use Rattle.trace_player.specs.Playing.{CanBeTaken, CanBeTold, CanGoOut, terms_in};
ghost use Rattle.trace_player.specs.Position.{Position, StandsAt};
ghost use Rattle.notify_player.specs.Asking.{HasArgument};
ghost use Rattle.notify_player.specs.Playing.{Follows, IsPlayedTo, position_in, without_panic};
ghost use Rattle.notify_player.specs.Watching.{CoversDuty};

use crate::entered::asked_by;
use crate::player::NotifyPlayer;
use core_machine::machines_stand;
use desk_answers::Duty;
use kernel_state::journals_stay_legal;
use msg_args::HEAD_LEN;
use native_tas::Natives;
use page_set::{KeptPages, PageSet};
use smc_abi::EBADCMD;
use std::alloc::{AllocError, Global};
use trace_player::Exit;
use trace_text::Item;
use word_parts::Stop;

/// Adds the pages to which the desk writes for a duty.
fn mark_duty(pages: &mut PageSet, duty: Duty)
    requires { HasArgument (duty_in duty) }
    ensures covers { CoversDuty pages.new (duty_in duty) }
    ensures keeps { IsWithin pages.old pages.new }
{
    match duty {
        Duty::RunsBottomHalf { arg } | Duty::Stops { arg } => pages.mark(arg, HEAD_LEN),
        Duty::Nothing | Duty::TellsValue | Duty::Enables | Duty::Offers => {}
    }
}

impl NotifyPlayer {
    /// The pages of RAM to which the exit of a processor that is inside can write: those of the core, and those of the desk,
    /// which writes only where the kernel doesn't know the call's command.
    fn pages_of_exit(&self, cpu: u8) -> PageSet
        requires { CanGoOut self.now.player.machine cpu }
        ensures { (boot : Booted) (ds : Drivers) (told next : NotifyPlay) → IsPlayedTo boot ds told self.now
            → length (lane_of told.play cpu) ≡ 0x400000 → goes_out boot ds cpu told ≡ Some next
            → StaysElsewhere result (lane_of told.play cpu) (lane_of next.play cpu) }
    {
        machines_stand();
        journals_stay_legal();
        let machine = self.machine();
        let mut pages = machine.pages_of_exit(cpu);
        let entry = machine.core().last_entry(cpu);
        let asked = asked_by(entry, EBADCMD);
        mark_duty(&mut pages, asked.duty);
        pages
    }

    /// Keeps what stands in the pages to which the exit of a processor that is inside can write.
    fn keep_pages(&self, cpu: u8, kept: &mut KeptPages) -> Result<(), AllocError>
        requires { CanGoOut self.now.player.machine cpu }
        ensures { (boot : Booted) (ds : Drivers) (told next : NotifyPlay) → IsPlayedTo boot ds told self.now
            → goes_out boot ds cpu told ≡ Some next
            → OnOk result (AreKept kept.new (lane_of told.play cpu) (lane_of next.play cpu)) }
    {
        kept.keep(self.pages_of_exit(cpu), self.machine().ram(cpu))
    }

    /// Plays an item up to where a processor goes out of the core by it, as `begin_item` of its player does, and keeps before
    /// that what the exit and the desk can change.
    fn begin_watched(
        &mut self,
        alloc: Global,
        item: &Item,
        kept: &mut KeptPages,
        lines: &mut Vec<u8>,
    ) -> Result<Option<Exit>, Stop>
        requires { CanBeTaken self.old.player.machine item.now }
        ensures begins { (boot : Booted) (at : Position) → StandsAt boot at self.old.player
            → Begins boot at item.now result self.new.player lines.old.items lines.new.items }
        ensures told { IfOk result (λ out. IfSome out (λ exit. CanBeTold self.new.player.machine exit.answer.cpu)) }
        ensures never_fails { result ≡ Err Stop.Failed → ⊥ }
        ensures terms { terms_in self.new.player ≡ terms_in self.old.player }
        ensures desk { self.new.desk ≡ self.old.desk }
        ensures kept { (boot : Booted) (ds : Drivers) (told next : NotifyPlay) (cpu : ℕ) → IsPlayedTo boot ds told self.old
            → goes_out_by item.now ≡ Some cpu → after_item boot ds item.now told ≡ Some next
            → OnOk result (AreKept kept.new (lane_of told.play cpu) (lane_of next.play cpu)) }
    {
        match item {
            Item::Smc { cpu, steps, regs } => {
                self.player.enter(alloc, *cpu, *steps, regs)?;
                self.keep_pages(*cpu, kept)?;
                Ok(Some(self.player.leave(*cpu)))
            }
            Item::Leave { cpu } => {
                self.keep_pages(*cpu, kept)?;
                Ok(Some(self.player.leave(*cpu)))
            }
            Item::Enter { .. } | Item::Write { .. } | Item::Show { .. } => {
                self.player.begin_item(alloc, item, lines)
            }
        }
    }

    /// Plays an item as `play_item` does. Where a processor goes out by it, what stood before in the pages that its exit and the
    /// desk can change is kept, in place of what was kept before.
    pub fn play_watched_item(
        &mut self,
        alloc: Global,
        natives: &Natives,
        item: &Item,
        kept: &mut KeptPages,
        lines: &mut Vec<u8>,
    ) -> Result<Option<u32>, Stop>
        requires can { CanBeTaken self.old.player.machine item.now }
        requires desk { IsDeskOf (drivers natives.now) self.old.desk }
        ensures follows { (boot : Booted) (told : NotifyPlay) → IsPlayedTo boot (drivers natives.now) told self.old
            → Follows boot (drivers natives.now) told (after_item boot (drivers natives.now) item.now told)
            (without_panic result) self.new lines.old.items lines.new.items }
        ensures panic { (boot : Booted) (told : NotifyPlay) → IsPlayedTo boot (drivers natives.now) told self.old
            → IfOk result (λ panic. panic ≡ panic_at_exit boot (position_in told) item.now) }
        ensures never_fails { result ≡ Err Stop.Failed → ⊥ }
        ensures terms { terms_in self.new.player ≡ terms_in self.old.player }
        ensures kept { (boot : Booted) (told next : NotifyPlay) (cpu : ℕ) → IsPlayedTo boot (drivers natives.now) told self.old
            → goes_out_by item.now ≡ Some cpu → after_item boot (drivers natives.now) item.now told ≡ Some next
            → OnOk result (AreKept kept.new (lane_of told.play cpu) (lane_of next.play cpu)) }
    {
        let out = self.begin_watched(alloc, item, kept, lines)?;
        match out {
            Some(exit) => {
                self.answer(natives, exit.answer, lines)?;
                Ok(exit.panic)
            }
            None => Ok(None),
        }
    }
}
