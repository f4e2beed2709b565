//! Judging a line that asks nothing.

ghost use Rattle.std.specs.Prelude.{◌≡◌, IfOk, true};
ghost use Rattle.live_text.specs.Judging.{history_line};
ghost use Rattle.live_text.specs.Rules.{LiveFront, after_line, line_rules};
ghost use Rattle.live_text.specs.Scene.{HasItsBoot, IsSceneOf};
ghost use Rattle.live_text.specs.Statement.{HasFewCpus, IsInPlace, IsJudged};
ghost use Rattle.live_text.specs.declared.line.LiveLine.TheVariants.{HistoryOff};
ghost use Rattle.text_lines.specs.Words.{words_of};
ghost use Rattle.trace_text.specs.Judging.{Judged};

use crate::asking::{OFF, first_word, second_word};
use crate::line::LiveLine;
use crate::scene::Scene;
use notify_text::judge_line;
use std::alloc::Global;
use trace_text::{BadKind, LineFault, has_words};
use uuid::Uuid;

/// The first word of the line that turns history off.
const HISTORY: &[u8] = b"history";

impl Scene {
    /// What a line says that begins none of a trace with signals: `history off`, or nothing.
    fn read_history(&self, line: &[u8]) -> Result<LiveLine, LineFault>
        ensures { Judged (λ l. l) result (history_line self.now (words_of line.now)) HistoryOff }
    {
        if first_word(line) != HISTORY || second_word(line) != OFF {
            return Err(LineFault::Broken(BadKind::Item));
        }
        if !has_words(line, 1) {
            return Err(LineFault::Broken(BadKind::Count));
        }
        if self.is_booted() {
            return Err(LineFault::Broken(BadKind::Place));
        }
        if self.is_history_off() {
            return Err(LineFault::Broken(BadKind::Repeat));
        }
        Ok(LiveLine::HistoryOff)
    }
}

/// Judges a line of a conversation that asks nothing, which is given without its line feed, behind the lines that the scene stands
/// for. `natives` are the UUIDs of the applications that are built in, which no `ta` line may repeat. A line that breaks a rule is
/// answered by the first one, in the order of [`BadKind`].
pub fn read_line(
    alloc: Global,
    natives: &[Uuid],
    scene: &Scene,
    line: &[u8],
) -> Result<LiveLine, LineFault>
    // It keeps its rules, and this is what it says; or the first one that it breaks is this, unless memory runs out.
    ensures judged { (front : LiveFront) → IsSceneOf scene.now front → HasItsBoot front →
        IsJudged result (line_rules natives.now front true line.now) front (after_line front line.now) }
    // What it says stands in its place: before the boot, in the header, or behind the boot.
    ensures in_place { IfOk result (IsInPlace scene.now) }
    ensures few { IfOk result HasFewCpus }
{
    match judge_line(alloc, natives, scene.lines(), false, line) {
        Ok(said) => Ok(LiveLine::Says(said)),
        Err(fault) => {
            if fault.is_unknown() {
                scene.read_history(line)
            } else {
                Err(fault)
            }
        }
    }
}
