//! A player of a core that is booted, before the first item of a trace.
ghost use Rattle.std.specs.Prelude.{◌≡◌, [], All, IfOk};
ghost use Rattle.base.specs.Zeros.{zeros};
ghost use Rattle.kernel_model.specs.Application.{IsBooted, booted};
ghost use Rattle.kernel_state.specs.Meaning.{booted_of, events_of, terms_of};
ghost use Rattle.kernel_state.specs.Terms.{kept_terms};
ghost use Rattle.native_tas.specs.Table.{entries};
ghost use Rattle.play_model.specs.Play.{first_play, first_play_within};
ghost use Rattle.trace_text.specs.Sound.{IsSoundBoot, IsSoundFill};
ghost use Rattle.trace_player.specs.Playing.{IsPlayedTo, terms_in};
ghost use Rattle.trace_player.specs.Starting.{uuids_of};

use crate::player::Player;
use base::NoMemory;
use core_machine::{Machine, core_of, core_on};
use kernel_state::{Core, Terms};
use native_tas::Natives;
use std::alloc::Global;
use ta_isa::Boot;
use trace_text::Fill;

/// Events are counted, since nobody reads them, and entries may read the 2^28 bytes of a trace.
pub const COUNTED: Terms = Terms {
    keeps: false,
    most: 1 << 28,
};

impl Player {
    /// A player on a core where nothing has happened, which fills the RAM of each processor.
    pub fn with_fills(alloc: Global, core: Core, fills: &[Fill]) -> Result<Player, NoMemory>
        requires fresh { events_of core ≡ [] }
        requires fills { All IsSoundFill fills.now }
        ensures stands { IfOk result (λ player. IsPlayedTo (booted_of core)
            (first_play_within (terms_of core).most (zeros 0x400000) (booted_of core) fills.now) player) }
        ensures terms { IfOk result (λ player. terms_in player ≡ terms_of core) }
    {
        Ok(Player::new(Machine::with_fills(alloc, core, fills)?))
    }

    /// Boots a core that keeps its events, and fills the RAM of each processor. Want of memory is all that stops it.
    pub fn booted(
        alloc: Global,
        boot: Boot,
        natives: &Natives,
        fills: &[Fill],
    ) -> Result<Player, NoMemory>
        requires boot { IsSoundBoot (uuids_of (entries natives.now)) boot }
        requires fills { All IsSoundFill fills.now }
        ensures stands { IfOk result (λ player.
            IsPlayedTo (booted boot (entries natives.now))
            (first_play (zeros 0x400000) (booted boot (entries natives.now)) fills.now) player) }
        ensures boots { IfOk result (λ player. IsBooted (booted boot (entries natives.now))) }
        ensures terms { IfOk result (λ player. terms_in player ≡ kept_terms) }
    {
        let core = core_of(alloc, boot, natives)?;
        Player::with_fills(alloc, core, fills)
    }

    /// Boots a core that counts its events, and fills the RAM of each processor. Want of memory is all that stops it.
    pub fn counting(
        alloc: Global,
        boot: Boot,
        natives: &Natives,
        fills: &[Fill],
    ) -> Result<Player, NoMemory>
        requires boot { IsSoundBoot (uuids_of (entries natives.now)) boot }
        requires fills { All IsSoundFill fills.now }
        ensures stands { IfOk result (λ player.
            IsPlayedTo (booted boot (entries natives.now))
            (first_play (zeros 0x400000) (booted boot (entries natives.now)) fills.now) player) }
        ensures boots { IfOk result (λ player. IsBooted (booted boot (entries natives.now))) }
    {
        let core = core_on(alloc, boot, natives, COUNTED)?;
        Player::with_fills(alloc, core, fills)
    }
}
