//! Judging a line.

ghost use Rattle.std.specs.Prelude.{◌≡◌, ◌∷◌, [], IfOk, true};
ghost use Rattle.notify_text.specs.Judging.{other_line};
ghost use Rattle.notify_text.specs.Rules.{NotifyFront, after_line, line_rules};
ghost use Rattle.notify_text.specs.Statement.{HasBootOfSignals, scene_of, with_statement};
ghost use Rattle.text_lines.specs.Words.{words_of};
ghost use Rattle.trace_text.specs.Forms.{decimal, is_decimal};
ghost use Rattle.trace_text.specs.Judging.{Judged};
ghost use Rattle.trace_text.specs.Limits.{is_within};
ghost use Rattle.trace_text.specs.Rules.{word};
ghost use Rattle.trace_text.specs.Statement.{HasFewCpus, IsInPlace, IsJudgedBy, closed_if};
ghost use Rattle.trace_text.specs.declared.statement.Statement.TheVariants as says;

use std::alloc::Global;
use text_lines::Words;
use trace_text::limits::is_within;
use trace_text::{BadKind, LineFault, Scene, Statement, has_words, number};
use uuid::Uuid;

/// The first word of the line of a signal.
const SIGNAL: &[u8] = b"signal";

/// The greatest value that the hardware signals.
const MAX_VALUE: u32 = 63;

/// The value of a signal, by its word.
fn value_of(word: &[u8]) -> Result<u32, LineFault>
    ensures { Judged (λ value. value) result
        ((BadKind.Number, is_decimal word.now) ∷ (BadKind.Range, is_within 1 63 (decimal word.now)) ∷ [])
        (decimal word.now) }
{
    let value = number(word)?;
    if !is_within(1, MAX_VALUE, value) {
        return Err(LineFault::Broken(BadKind::Range));
    }
    Ok(value)
}

/// What a line says that begins none of a trace: a signal, or nothing.
fn judge_other(is_booted: bool, line: &[u8]) -> Result<Statement, LineFault>
    ensures { Judged (λ s. s) result (other_line is_booted (words_of line.now)) (says.Signal (decimal (word (words_of line.now) 1))) }
{
    let mut words = Words::of(line);
    let first = words.word();
    if first != SIGNAL {
        return Err(LineFault::Broken(BadKind::Item));
    }
    if !has_words(line, 1) {
        return Err(LineFault::Broken(BadKind::Count));
    }
    if !is_booted {
        return Err(LineFault::Broken(BadKind::Place));
    }
    let second = words.word();
    Ok(Statement::Signal(value_of(second)?))
}

/// Judges a line of a trace with signals, which is given without its line feed, behind the lines that the scene stands for, and
/// says whether a signal among them closes what a boot is given: what it says, or the first rule that it breaks, in the order of
/// [`BadKind`]. `natives` are the UUIDs of the applications that are built in, which no `ta` line may repeat.
pub fn judge_line(
    alloc: Global,
    natives: &[Uuid],
    scene: &Scene,
    is_closed: bool,
    line: &[u8],
) -> Result<Statement, LineFault>
    ensures judged { (front : NotifyFront) → closed_if is_closed scene.now ≡ scene_of front → HasBootOfSignals front →
        IsJudgedBy with_statement result (line_rules natives.now front true line.now) front (after_line front line.now) }
    ensures in_place { IfOk result (IsInPlace (closed_if is_closed scene.now)) }
    ensures few { IfOk result HasFewCpus }
{
    match scene.judge(alloc, natives, is_closed, line) {
        Ok(said) => Ok(said),
        Err(fault) => {
            if fault.is_unknown() {
                judge_other(scene.is_booted(), line)
            } else {
                Err(fault)
            }
        }
    }
}
