//! Judging a line that asks.

ghost use Rattle.std.specs.Prelude.{◌≡◌, ◌≢◌, ◌<◌, ◌∷◌, ◌↔◌, [], IfErr, IfSome, IsNone, None, nat_lt, not};
ghost use Rattle.live_text.specs.Asking.{IsAsked, is_switch, kind_of_line, question_of, rules_of};
ghost use Rattle.live_text.specs.declared.question.QuestionKind.TheVariants as word_of;
ghost use Rattle.text_lines.specs.Words.{words_of};
ghost use Rattle.trace_text.specs.Forms.{decimal, is_decimal};
ghost use Rattle.trace_text.specs.Judging.{IsSaid, Judged};
ghost use Rattle.trace_text.specs.Rules.{counts, word};

use crate::question::{Question, QuestionKind};
use crate::scene::Scene;
use text_lines::Words;
use trace_text::limits::is_within;
use trace_text::word::address;
use trace_text::{BadKind, LineFault, has_words, is_text, number};

/// The second word of a line that begins to watch.
const ON: &[u8] = b"on";

/// The second word of a line that watches no longer, or that turns history off.
pub(crate) const OFF: &[u8] = b"off";

/// The most events that are told at once.
pub const MOST_EVENTS: u32 = 1024;

/// The first word of a line.
pub(crate) fn first_word(line: &[u8]) -> &[u8]
    ensures { result.now ≡ word (words_of line.now) 0 }
{
    let mut words = Words::of(line);
    words.word()
}

/// The second word of a line, which is empty where there is none.
pub(crate) fn second_word(line: &[u8]) -> &[u8]
    ensures { result.now ≡ word (words_of line.now) 1 }
{
    let mut words = Words::of(line);
    let _first = words.next_word();
    words.next_word().unwrap_or(&[])
}

/// The third word of a line, which is empty where there is none.
fn third_word(line: &[u8]) -> &[u8]
    ensures { result.now ≡ word (words_of line.now) 2 }
{
    let mut words = Words::of(line);
    let _first = words.next_word();
    let _second = words.next_word();
    words.next_word().unwrap_or(&[])
}

/// The number of a word, where it is below 4294967295.
fn place_in(word: &[u8]) -> Result<u32, LineFault>
    ensures judged { Judged (λ n. n) result
        ((BadKind.Number, is_decimal word.now) ∷ (BadKind.Range, nat_lt (decimal word.now) 4294967295) ∷ [])
        (decimal word.now) }
    ensures room { IfErr result (λ fault. fault ≢ LineFault.NoRoom) }
{
    let number = number(word)?;
    if number == u32::MAX {
        return Err(LineFault::Broken(BadKind::Range));
    }
    Ok(number)
}

/// That a line has so many words behind the first one, none of them empty.
fn has_count(line: &[u8], behind: usize) -> Result<(), LineFault>
    requires { behind < 100 }
    ensures { IsSaid result BadKind.Count (counts behind (words_of line.now)) tt }
{
    if !has_words(line, behind) {
        return Err(LineFault::Broken(BadKind::Count));
    }
    Ok(())
}

/// That a boot stands before a line.
fn has_boot(is_booted: bool) -> Result<(), LineFault>
    ensures { IsSaid result BadKind.Place is_booted tt }
{
    if !is_booted {
        return Err(LineFault::Broken(BadKind::Place));
    }
    Ok(())
}

/// That history is kept.
fn has_history(is_off: bool) -> Result<(), LineFault>
    ensures { IsSaid result BadKind.Place (not is_off) tt }
{
    if is_off {
        return Err(LineFault::Broken(BadKind::Place));
    }
    Ok(())
}

/// What a line `watch` asks.
fn read_watch(line: &[u8]) -> Result<Question, LineFault>
    ensures judged { Judged (λ asked. asked) result
        ((BadKind.Item, is_switch (word (words_of line.now) 1)) ∷ (BadKind.Count, counts 1 (words_of line.now)) ∷ [])
        (question_of word_of.Watch (words_of line.now)) }
    ensures room { IfErr result (λ fault. fault ≢ LineFault.NoRoom) }
{
    let switch = second_word(line);
    let is_on = switch == ON;
    if !is_on && switch != OFF {
        return Err(LineFault::Broken(BadKind::Item));
    }
    has_count(line, 1)?;
    Ok(Question::Watch(is_on))
}

/// What a line `events` asks.
fn read_events(scene: &Scene, line: &[u8]) -> Result<Question, LineFault>
    ensures judged { Judged (λ asked. asked) result (rules_of word_of.Events scene.now (words_of line.now))
        (question_of word_of.Events (words_of line.now)) }
    ensures room { IfErr result (λ fault. fault ≢ LineFault.NoRoom) }
{
    has_count(line, 2)?;
    has_boot(scene.is_booted())?;
    has_history(scene.is_history_off())?;
    let from = number(second_word(line))?;
    let count = number(third_word(line))?;
    if from == u32::MAX {
        return Err(LineFault::Broken(BadKind::Range));
    }
    if !is_within(1, MOST_EVENTS, count) {
        return Err(LineFault::Broken(BadKind::Range));
    }
    Ok(Question::Events { from, count })
}

/// What a line of this kind asks.
fn read_kind(kind: QuestionKind, scene: &Scene, line: &[u8]) -> Result<Question, LineFault>
    ensures judged { Judged (λ asked. asked) result (rules_of kind scene.now (words_of line.now))
        (question_of kind (words_of line.now)) }
    ensures room { IfErr result (λ fault. fault ≢ LineFault.NoRoom) }
{
    match kind {
        QuestionKind::Watch => read_watch(line),
        QuestionKind::State => {
            has_count(line, 0)?;
            has_boot(scene.is_booted())?;
            Ok(Question::State)
        }
        QuestionKind::Session => {
            has_count(line, 1)?;
            has_boot(scene.is_booted())?;
            Ok(Question::Session(place_in(second_word(line))?))
        }
        QuestionKind::Buffer => {
            has_count(line, 1)?;
            has_boot(scene.is_booted())?;
            Ok(Question::Buffer(address(second_word(line))?))
        }
        QuestionKind::Events => read_events(scene, line),
    }
}

/// Judges a line that asks, which is given without its line feed, behind the lines that the scene stands for: what it asks, or
/// the first rule that it breaks, in the order of [`BadKind`]. `None` where its first word is not that of a question. Takes no
/// memory.
pub fn read_question(scene: &Scene, line: &[u8]) -> Option<Result<Question, LineFault>>
    ensures other { IsNone result ↔ (kind_of_line line.now ≡ None) }
    ensures asked { IfSome result (IsAsked scene.now line.now) }
    ensures room { IfSome result (λ judged. IfErr judged (λ fault. fault ≢ LineFault.NoRoom)) }
{
    let kind = QuestionKind::named(first_word(line))?;
    if !is_text(line) {
        return Some(Err(LineFault::Broken(BadKind::Byte)));
    }
    Some(read_kind(kind, scene, line))
}
