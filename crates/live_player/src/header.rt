//! What the lines of the header say, and what a core is booted with.

ghost use Rattle.std.specs.Prelude.{◌≡◌, ℕ, ◌^◌, ◌≤◌, IfOk, OnOk, true, false};
ghost use Rattle.live_play.specs.Answer.{platform_within};
ghost use Rattle.live_player.specs.Header.{IsHeaderOf, boot_in, terms_where};
ghost use Rattle.live_player.specs.Standing.{CanBegin, IsPlayedBehind};
ghost use Rattle.notify_text.specs.Statement.{with_statement};
ghost use Rattle.native_tas.specs.Table.{drivers, entries};
ghost use Rattle.notify_text.specs.Rules.{NotifyFront, no_lines};
ghost use Rattle.trace_player.specs.Playing.{terms_in};

use base::NoMemory;
use core_at_work::core_on;
use kernel_state::Terms;
use native_tas::Natives;
use notify_player::NotifyPlayer;
use std::alloc::{AllocError, Global};
use ta_isa::{App, Boot};
use trace_text::limits::{KEY_BYTES, Size, boot_of};
use trace_text::{Fill, Statement};

/// A boot, and bytes that stand in every lane at the start.
#[derive(Drop)]
pub(crate) struct Header {
    size: Option<Size>,
    apps: Vec<App>,
    key: Option<[u8; KEY_BYTES]>,
    fills: Vec<Fill>,
    is_history_off: bool,
}

impl Header {
    /// Nothing yet. Takes no memory.
    pub(crate) fn new(alloc: Global) -> Header
        ensures said { IsHeaderOf result no_lines }
        ensures history { result.is_history_off ≡ false }
    {
        Header {
            size: None,
            apps: Vec::new(alloc),
            key: None,
            fills: Vec::new(alloc),
            is_history_off: false,
        }
    }

    /// From here on history is off.
    pub(crate) fn forget(&mut self)
        ensures { self.new ≡ record self.old { is_history_off = true } }
    {
        self.is_history_off = true;
    }

    /// On what terms a core is booted: where history is off, its events are counted, and read as much as they will.
    fn terms(&self) -> Terms
        ensures terms { result ≡ terms_where self.now.is_history_off }
        ensures bounded { result.most ≤ 2 ^ 63 }
    {
        if self.is_history_off {
            Terms {
                keeps: false,
                most: 1 << 63,
            }
        } else {
            Terms::KEPT
        }
    }

    /// Adds what a line says. An item and a signal add nothing here.
    pub(crate) fn add(&mut self, said: Statement) -> Result<(), NoMemory>
        ensures said { (lines : NotifyFront) → IsHeaderOf self.old lines →
            OnOk result (IsHeaderOf self.new (with_statement lines said)) }
        ensures history { self.new.is_history_off ≡ self.old.is_history_off }
    {
        match said {
            Statement::Boot(size) => {
                self.size = Some(size);
                self.apps.clear();
                self.key = None;
                Ok(())
            }
            Statement::App(app) => Ok(self.apps.push(app)?),
            Statement::Fill(fill) => Ok(self.fills.push(fill)?),
            Statement::Key(key) => {
                self.key = Some(key);
                Ok(())
            }
            Statement::Blank | Statement::Item(_) | Statement::Signal(_) => Ok(()),
        }
    }

    /// A copy of the boot, where there is one.
    fn boot(&self, alloc: Global) -> Result<Option<Boot>, AllocError>
        ensures { IfOk result (λ boot. boot ≡ boot_in self.now) }
    {
        Ok(boot_of(self.size, self.apps.as_slice().to_vec(alloc)?, self.key))
    }

    /// A player on a core of the boot, before the first step. The header stays, since its lines count on where the first
    /// entry is refused.
    pub(crate) fn first_player(
        &self,
        alloc: Global,
        natives: &Natives,
    ) -> Result<NotifyPlayer, NoMemory>
        requires { (most : ℕ) × (lines : NotifyFront) × CanBegin (platform_within most (entries natives.now) (drivers natives.now)) lines self.now }
        ensures played { (most : ℕ) (lines : NotifyFront) → CanBegin (platform_within most (entries natives.now) (drivers natives.now)) lines self.now →
            IfOk result (IsPlayedBehind (platform_within most (entries natives.now) (drivers natives.now)) lines) }
        ensures terms { IfOk result (λ player. terms_in player.player ≡ terms_where self.now.is_history_off) }
    {
        let Some(boot) = self.boot(alloc)? else {
            unreachable!()
        };
        let core = core_on(alloc, boot, natives, self.terms())?;
        NotifyPlayer::with_fills(alloc, core, natives, self.fills.as_slice())
    }
}
