//! A player before the first step of a trace.

ghost use Rattle.std.specs.Prelude.{◌≡◌, [], All, IfOk, map};
ghost use Rattle.base.specs.Zeros.{zeros};
ghost use Rattle.kernel_model.specs.Application.{IsBooted, booted};
ghost use Rattle.kernel_state.specs.Meaning.{booted_of, events_of, terms_of};
ghost use Rattle.kernel_state.specs.Terms.{kept_terms};
ghost use Rattle.native_tas.specs.Table.{drivers, entries};
ghost use Rattle.notify_play.specs.NotifyPlay.{first_notify_play};
ghost use Rattle.notify_player.specs.Playing.{IsPlayedTo};
ghost use Rattle.play_model.specs.Play.{first_play, first_play_within};
ghost use Rattle.trace_player.specs.Playing.{terms_in};
ghost use Rattle.trace_text.specs.Sound.{IsSoundBoot, IsSoundFill};

use crate::player::NotifyPlayer;
use base::NoMemory;
use core_machine::{core_of, core_on};
use kernel_state::Core;
use native_tas::Natives;
use notif::Desk;
use std::alloc::Global;
use ta_isa::Boot;
use trace_player::{COUNTED, Player};
use trace_text::Fill;

impl NotifyPlayer {
    /// A player on a core where nothing has happened, which fills the RAM of each processor, and a desk.
    pub fn with_fills(
        alloc: Global,
        core: Core,
        natives: &Natives,
        fills: &[Fill],
    ) -> Result<NotifyPlayer, NoMemory>
        requires fresh { events_of core ≡ [] }
        requires fills { All IsSoundFill fills.now }
        ensures stands { IfOk result (λ player. IsPlayedTo (booted_of core) (drivers natives.now)
            (first_notify_play (booted_of core)
            (first_play_within (terms_of core).most (zeros 0x400000) (booted_of core) fills.now)) player) }
        ensures terms { IfOk result (λ player. terms_in player.player ≡ terms_of core) }
    {
        let player = Player::with_fills(alloc, core, fills)?;
        let desk = Desk::new(alloc, natives)?;
        Ok(NotifyPlayer::new(player, desk))
    }

    /// Boots a core that keeps its events, fills the RAM of each processor, and sets up a desk: before the first step. Want of
    /// memory is all that stops it.
    pub fn booted(
        alloc: Global,
        boot: Boot,
        natives: &Natives,
        fills: &[Fill],
    ) -> Result<NotifyPlayer, NoMemory>
        requires boot { IsSoundBoot (map (λ native. native.0) (entries natives.now)) boot }
        requires fills { All IsSoundFill fills.now }
        ensures stands { IfOk result (λ player.
            IsPlayedTo (booted boot (entries natives.now)) (drivers natives.now)
            (first_notify_play (booted boot (entries natives.now))
            (first_play (zeros 0x400000) (booted boot (entries natives.now)) fills.now)) player) }
        ensures boots { IfOk result (λ player. IsBooted (booted boot (entries natives.now))) }
        ensures terms { IfOk result (λ player. terms_in player.player ≡ kept_terms) }
    {
        let core = core_of(alloc, boot, natives)?;
        NotifyPlayer::with_fills(alloc, core, natives, fills)
    }

    /// Boots a core that counts its events, fills the RAM of each processor, and sets up a desk: before the first step. Want of
    /// memory is all that stops it.
    pub fn counting(
        alloc: Global,
        boot: Boot,
        natives: &Natives,
        fills: &[Fill],
    ) -> Result<NotifyPlayer, NoMemory>
        requires boot { IsSoundBoot (map (λ native. native.0) (entries natives.now)) boot }
        requires fills { All IsSoundFill fills.now }
        ensures stands { IfOk result (λ player.
            IsPlayedTo (booted boot (entries natives.now)) (drivers natives.now)
            (first_notify_play (booted boot (entries natives.now))
            (first_play (zeros 0x400000) (booted boot (entries natives.now)) fills.now)) player) }
        ensures boots { IfOk result (λ player. IsBooted (booted boot (entries natives.now))) }
    {
        let core = core_on(alloc, boot, natives, COUNTED)?;
        NotifyPlayer::with_fills(alloc, core, natives, fills)
    }
}
