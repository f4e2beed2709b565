//! What the lines so far have come to: a header, or what a core has played.

ghost use Rattle.std.specs.Prelude.{◌≡◌, ℕ, ◌^◌, ◌≤◌, List, ◌∷◌, Err, IfOk, IsOk, OnOk, Some, true};
ghost use Rattle.kernel_model.specs.Application.{Booted};
ghost use Rattle.live_play.specs.Answer.{Platform, platform_within};
ghost use Rattle.live_play.specs.Showing.{cpu_out_by, within};
ghost use Rattle.live_player.specs.Header.{terms_where};
ghost use Rattle.live_player.specs.Panicking.{EndsIn, taken_as};
ghost use Rattle.live_player.specs.Standing.{IsOpen, IsPlayedBehind, StageAt, terms_on};
ghost use Rattle.live_player.specs.Taking.{IsNext, IsPlaced, PlaysOn, StagePlays, played};
ghost use Rattle.live_player.specs.Watching.{KeepsFor, cpu_going_out};
ghost use Rattle.live_player.specs.declared.taken.Taken.TheVariants as taken;
ghost use Rattle.notify_text.specs.Statement.{with_statement};
ghost use Rattle.trace_text.specs.declared.statement.Statement.TheVariants as says;
ghost use Rattle.native_tas.specs.Table.{drivers, entries};
ghost use Rattle.notif.specs.Desk.{IsDeskOf};
ghost use Rattle.notif.specs.History as desk;
ghost use Rattle.notify_play.specs.NotifyPlay.{Drivers, NotifyPlay, after_item};
ghost use Rattle.notify_player.specs.Playing.{Follows, IsPlayedTo, position_in, without_panic};
ghost use Rattle.notify_text.specs.Rules.{NotifyFront};
ghost use Rattle.page_set.specs.Keeping.{AreKept};
ghost use Rattle.play_model.specs.Play.{lane_of};
ghost use Rattle.trace_player.specs.Items.{goes_out_by, panic_at_exit};
ghost use Rattle.trace_player.specs.Playing.{CanBeTaken, terms_in};

use crate::header::Header;
use crate::taken::Played;
use crate::watch::Watch;
use base::NoMemory;
use core_machine::machines_stand;
use native_tas::Natives;
use notif::desks_keep_their_drivers;
use notify_player::NotifyPlayer;
use notify_text::Signal;
use std::alloc::Global;
use trace_text::{Item, Statement};
use word_parts::Stop;

/// What the lines so far have come to.
#[derive(Drop)]
pub(crate) enum Stage {
    /// All of them are of the header.
    Header(Header),
    /// A core has played them.
    Core(NotifyPlayer),
}

/// Plays an item, watched where that is wanted.
fn play_so(
    player: &mut NotifyPlayer,
    alloc: Global,
    natives: &Natives,
    item: &Item,
    watch: &mut Watch,
    text: &mut Vec<u8>,
) -> Result<Option<u32>, Stop>
    requires can { CanBeTaken player.old.player.machine item.now }
    requires desk { IsDeskOf (drivers natives.now) player.old.desk }
    ensures follows { (boot : Booted) (told : NotifyPlay) → IsPlayedTo boot (drivers natives.now) told player.old
        → Follows boot (drivers natives.now) told (after_item boot (drivers natives.now) item.now told)
        (without_panic result) player.new text.old.items text.new.items }
    ensures panic { (boot : Booted) (told : NotifyPlay) → IsPlayedTo boot (drivers natives.now) told player.old
        → IfOk result (λ panic. panic ≡ panic_at_exit boot (position_in told) item.now) }
    ensures never_fails { result ≡ Err Stop.Failed → ⊥ }
    ensures terms { terms_in player.new.player ≡ terms_in player.old.player }
    ensures kept { (boot : Booted) (told next : NotifyPlay) (cpu : ℕ) → watch.old.is_on ≡ true
        → IsPlayedTo boot (drivers natives.now) told player.old → goes_out_by item.now ≡ Some cpu
        → after_item boot (drivers natives.now) item.now told ≡ Some next
        → OnOk result (AreKept watch.new.kept (lane_of told.play cpu) (lane_of next.play cpu)) }
{
    if watch.is_on {
        player.play_watched_item(alloc, natives, item, &mut watch.kept, text)
    } else {
        player.play_item(alloc, natives, item, text)
    }
}

/// Plays an item, appends what it prints, and tells the panic in which the call of its exit has ended, if it did.
fn play_on(
    player: &mut NotifyPlayer,
    alloc: Global,
    natives: &Natives,
    item: &Item,
    watch: &mut Watch,
    text: &mut Vec<u8>,
) -> Result<Played, NoMemory>
    requires { (most : ℕ) × (lines : NotifyFront)
        × IsNext (platform_within most (entries natives.now) (drivers natives.now)) lines (says.Item item.now)
        × IsPlayedBehind (platform_within most (entries natives.now) (drivers natives.now)) lines player.old }
    ensures plays { (most : ℕ) (lines : NotifyFront)
        → IsNext (platform_within most (entries natives.now) (drivers natives.now)) lines (says.Item item.now)
        → IsPlayedBehind (platform_within most (entries natives.now) (drivers natives.now)) lines player.old
        → IfOk result (λ how. PlaysOn (platform_within most (entries natives.now) (drivers natives.now)) lines (says.Item item.now)
        (taken_as how) player.new text.old.items text.new.items) }
    ensures panic { (most : ℕ) (lines : NotifyFront)
        → IsPlayedBehind (platform_within most (entries natives.now) (drivers natives.now)) lines player.old
        → IfOk result (λ how. EndsIn (platform_within most (entries natives.now) (drivers natives.now)) lines (says.Item item.now) how) }
    ensures terms { terms_in player.new.player ≡ terms_in player.old.player }
    ensures kept { (most cpu : ℕ) (lines : NotifyFront)
        → IsNext (platform_within most (entries natives.now) (drivers natives.now)) lines (says.Item item.now)
        → IsPlayedBehind (platform_within most (entries natives.now) (drivers natives.now)) lines player.old
        → watch.old.is_on ≡ true → cpu_out_by item.now ≡ Some cpu
        → IfOk result (KeepsFor (platform_within most (entries natives.now) (drivers natives.now)) lines (says.Item item.now)
        cpu watch.new.kept) }
{
    machines_stand();
    desks_keep_their_drivers();
    match play_so(player, alloc, natives, item, watch, text) {
        Ok(panic) => Ok(Played::Done(panic)),
        Err(Stop::Full) => Ok(Played::Full(player.machine().core().copied())),
        Err(Stop::Failed | Stop::Memory) => Err(NoMemory),
    }
}

/// Lets the hardware signal a value.
fn signal_on(player: &mut NotifyPlayer, value: u32)
    requires least { 1 ≤ value }
    requires most { value ≤ 63 }
    ensures terms { terms_in player.new.player ≡ terms_in player.old.player }
    ensures signalled { (boot : Booted) (ds : Drivers) (told : NotifyPlay) → IsPlayedTo boot ds told player.old
        → IsPlayedTo boot ds (record told { calls = desk.Signal value ∷ told.calls }) player.new }
{
    let signals = [Signal { at: 0, value }];
    player.take_signals(0, &signals);
}

impl Stage {
    /// Plays an item, appends what it prints, and tells the panic in which the call of its exit has ended, if it did. A core that
    /// was booted for it stays unless its entry is refused, since lines of the header may follow then.
    fn play_item(
        &mut self,
        alloc: Global,
        natives: &Natives,
        item: &Item,
        watch: &mut Watch,
        text: &mut Vec<u8>,
    ) -> Result<Played, NoMemory>
        requires { (most : ℕ) × (lines : NotifyFront)
            × IsNext (platform_within most (entries natives.now) (drivers natives.now)) lines (says.Item item.now)
            × StageAt (platform_within most (entries natives.now) (drivers natives.now)) lines self.old }
        ensures plays { (most : ℕ) (lines : NotifyFront)
            → IsNext (platform_within most (entries natives.now) (drivers natives.now)) lines (says.Item item.now)
            → StageAt (platform_within most (entries natives.now) (drivers natives.now)) lines self.old
            → IfOk result (λ how. StagePlays (platform_within most (entries natives.now) (drivers natives.now)) lines
            (says.Item item.now) (taken_as how) self.new text.old.items text.new.items) }
        ensures panic { (most : ℕ) (lines : NotifyFront)
            → IsNext (platform_within most (entries natives.now) (drivers natives.now)) lines (says.Item item.now)
            → StageAt (platform_within most (entries natives.now) (drivers natives.now)) lines self.old
            → IfOk result (λ how. EndsIn (platform_within most (entries natives.now) (drivers natives.now)) lines
            (says.Item item.now) how) }
        ensures terms { IsOk result → terms_on self.new ≡ terms_on self.old }
        ensures kept { (most cpu : ℕ) (lines : NotifyFront)
            → IsNext (platform_within most (entries natives.now) (drivers natives.now)) lines (says.Item item.now)
            → StageAt (platform_within most (entries natives.now) (drivers natives.now)) lines self.old
            → watch.old.is_on ≡ true → cpu_out_by item.now ≡ Some cpu
            → IfOk result (KeepsFor (platform_within most (entries natives.now) (drivers natives.now)) lines (says.Item item.now)
            cpu watch.new.kept) }
    {
        match self {
            Stage::Core(player) => play_on(player, alloc, natives, item, watch, text),
            Stage::Header(header) => {
                let mut player = header.first_player(alloc, natives)?;
                let how = play_on(&mut player, alloc, natives, item, watch, text)?;
                match how {
                    Played::Done(_) => {
                        *self = Stage::Core(player);
                        Ok(how)
                    }
                    Played::Full(_) => Ok(how),
                }
            }
        }
    }

    /// Lets the hardware signal a value, which prints nothing.
    fn signal(&mut self, alloc: Global, natives: &Natives, value: u32) -> Result<(), NoMemory>
        requires { (most : ℕ) × (lines : NotifyFront)
            × IsNext (platform_within most (entries natives.now) (drivers natives.now)) lines (says.Signal value)
            × StageAt (platform_within most (entries natives.now) (drivers natives.now)) lines self.old }
        ensures terms { IsOk result → terms_on self.new ≡ terms_on self.old }
        ensures plays { (most : ℕ) (lines : NotifyFront) (text : List ℕ)
            → IsNext (platform_within most (entries natives.now) (drivers natives.now)) lines (says.Signal value)
            → StageAt (platform_within most (entries natives.now) (drivers natives.now)) lines self.old
            → OnOk result (StagePlays (platform_within most (entries natives.now) (drivers natives.now)) lines (says.Signal value)
            taken.Done self.new text text) }
    {
        match self {
            Stage::Core(player) => {
                signal_on(player, value);
                Ok(())
            }
            Stage::Header(header) => {
                let mut player = header.first_player(alloc, natives)?;
                signal_on(&mut player, value);
                *self = Stage::Core(player);
                Ok(())
            }
        }
    }

    /// Plays what a line says, where it is an item or a signal, appends what it prints, and tells the panic in which the call of its
    /// exit has ended, if it did.
    pub(crate) fn play(
        &mut self,
        alloc: Global,
        natives: &Natives,
        said: &Statement,
        watch: &mut Watch,
        text: &mut Vec<u8>,
    ) -> Result<Played, NoMemory>
        requires { (most : ℕ) × (lines : NotifyFront)
            × IsNext (platform_within most (entries natives.now) (drivers natives.now)) lines said.now
            × StageAt (platform_within most (entries natives.now) (drivers natives.now)) lines self.old }
        ensures plays { (most : ℕ) (lines : NotifyFront)
            → IsNext (platform_within most (entries natives.now) (drivers natives.now)) lines said.now
            → StageAt (platform_within most (entries natives.now) (drivers natives.now)) lines self.old
            → IfOk result (λ how. StagePlays (platform_within most (entries natives.now) (drivers natives.now)) lines said.now
            (taken_as how) self.new text.old.items text.new.items) }
        ensures panic { (most : ℕ) (lines : NotifyFront)
            → IsNext (platform_within most (entries natives.now) (drivers natives.now)) lines said.now
            → StageAt (platform_within most (entries natives.now) (drivers natives.now)) lines self.old
            → IfOk result (λ how. EndsIn (platform_within most (entries natives.now) (drivers natives.now)) lines said.now how) }
        ensures terms { IsOk result → terms_on self.new ≡ terms_on self.old }
        ensures kept { (most cpu : ℕ) (lines : NotifyFront)
            → IsNext (platform_within most (entries natives.now) (drivers natives.now)) lines said.now
            → StageAt (platform_within most (entries natives.now) (drivers natives.now)) lines self.old
            → watch.old.is_on ≡ true → cpu_going_out said.now ≡ Some cpu
            → IfOk result (KeepsFor (platform_within most (entries natives.now) (drivers natives.now)) lines said.now cpu
            watch.new.kept) }
    {
        match said {
            Statement::Item(item) => self.play_item(alloc, natives, item, watch, text),
            Statement::Signal(value) => {
                self.signal(alloc, natives, *value)?;
                Ok(Played::Done(None))
            }
            Statement::Blank
            | Statement::Boot(_)
            | Statement::App(_)
            | Statement::Fill(_)
            | Statement::Key(_) => Ok(Played::Done(None)),
        }
    }

    /// Adds what a line of the header says. What was played adds nothing more.
    pub(crate) fn add(&mut self, said: Statement) -> Result<(), NoMemory>
        ensures terms { terms_on self.new ≡ terms_on self.old }
        ensures added { (on : Platform) (lines : NotifyFront) → IsPlaced lines said → StageAt on (played lines said) self.old
            → OnOk result (StageAt on (with_statement lines said) self.new) }
    {
        match self {
            Stage::Header(header) => header.add(said),
            Stage::Core(_) => Ok(()),
        }
    }

    /// From here on history is off. The lines are those of a header then.
    pub(crate) fn forget(&mut self)
        ensures at { (on : Platform) (lines : NotifyFront) → IsOpen lines → StageAt on lines self.old
            → StageAt (within on (2 ^ 63)) lines self.new }
        ensures terms { (on : Platform) (lines : NotifyFront) → IsOpen lines → StageAt on lines self.old
            → terms_on self.new ≡ terms_where true }
    {
        match self {
            Stage::Header(header) => header.forget(),
            Stage::Core(_) => {}
        }
    }
}
