//! What a core is asked for.

ghost use Rattle.std.specs.Prelude.{◌≡◌, ℕ, ◌++◌, OnOk, is_some, true};
ghost use Rattle.live_play.specs.Answer.{Platform, platform_within};
ghost use Rattle.live_play.specs.Showing.{answer_at};
ghost use Rattle.live_player.specs.Standing.{IsPlayedBehind, IsWithin, StageAt, terms_on};
ghost use Rattle.native_tas.specs.Table.{drivers, entries};
ghost use Rattle.notify_text.specs.Rules.{NotifyFront};
ghost use Rattle.shown_lines.specs.Asking.{CanTell};
ghost use Rattle.trace_player.specs.Playing.{terms_in};

use crate::stage::Stage;
use base::NoMemory;
use live_text::Question;
use native_tas::Natives;
use notify_player::NotifyPlayer;
use std::alloc::{AllocError, Global};

/// Appends what the core of a player answers to a question.
fn push_told(
    alloc: Global,
    player: &NotifyPlayer,
    question: &Question,
    text: &mut Vec<u8>,
) -> Result<(), AllocError>
    requires { CanTell (terms_in player.now.player).keeps question.now }
    ensures { (on : Platform) (lines : NotifyFront) → IsPlayedBehind on lines player.now →
        OnOk result (text.new.items ≡ text.old.items ++ answer_at on lines question.now) }
{
    shown_lines::push_told(alloc, text, player.machine().core(), question)
}

impl Stage {
    /// Appends what the core answers to a question, of which a boot stands before. Where none is booted yet, one is booted for
    /// the answer alone. Events are asked where history is kept.
    pub(crate) fn push_told(
        &self,
        alloc: Global,
        natives: &Natives,
        question: &Question,
        text: &mut Vec<u8>,
    ) -> Result<(), NoMemory>
        requires kept { CanTell (terms_on self.now).keeps question.now }
        requires stands { (most : ℕ) × (lines : NotifyFront) × IsWithin (platform_within most (entries natives.now) (drivers natives.now)) lines
            × StageAt (platform_within most (entries natives.now) (drivers natives.now)) lines self.now × (is_some lines.trace.boot ≡ true) }
        ensures { (most : ℕ) (lines : NotifyFront) → IsWithin (platform_within most (entries natives.now) (drivers natives.now)) lines
            → StageAt (platform_within most (entries natives.now) (drivers natives.now)) lines self.now → is_some lines.trace.boot ≡ true
            → OnOk result (text.new.items ≡ text.old.items
            ++ answer_at (platform_within most (entries natives.now) (drivers natives.now)) lines question.now) }
    {
        match self {
            Stage::Core(player) => push_told(alloc, player, question, text)?,
            Stage::Header(header) => {
                let player = header.first_player(alloc, natives)?;
                push_told(alloc, &player, question, text)?;
            }
        }
        Ok(())
    }
}
