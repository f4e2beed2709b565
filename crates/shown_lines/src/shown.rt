//! What a core is asked for.

ghost use Rattle.std.specs.Prelude.{◌≡◌, ◌++◌, OnOk, Some};
ghost use Rattle.std.specs.Option.{option_map};
ghost use Rattle.kernel_model.specs.Kernel.{Kernel};
ghost use Rattle.kernel_state.specs.Meaning.{booted_of, events_of, kernel_of, terms_of};
ghost use Rattle.kernel_state.specs.Replay.{Replays};
ghost use Rattle.kernel_state.specs.Setup.{booted_of_setup};
ghost use Rattle.live_play.specs.Showing.{answer_of_kernel};
ghost use Rattle.live_play.specs.State.{count_lines, state_text};
ghost use Rattle.shown_lines.specs.Asking.{CanTell};

use crate::buffers::{push_registered, push_session};
use crate::events::push_kept;
use crate::instances::{push_count, push_instances};
use crate::masks::push_masks;
use crate::processors::push_insides;
use crate::slots::push_slots;
use kernel_state::{Core, Parts};
use live_text::Question;
use std::alloc::{AllocError, Global};

/// Appends the lines of counts.
fn push_counts(text: &mut Vec<u8>, parts: &Parts) -> Result<(), AllocError>
    ensures { (so : Replays parts.now) → OnOk result (text.new.items
        ≡ text.old.items ++ count_lines (booted_of_setup parts.now.setup) so.kernel parts.now.journal.events) }
{
    push_count(text, b"sessions", parts.tables.sessions.len() as u64)?;
    push_count(text, b"buffers", parts.tables.registry.len() as u64)?;
    push_count(text, b"pages", u64::from(parts.tables.pool.free()))?;
    push_count(text, b"events", parts.journal.len())?;
    push_count(text, b"copied", parts.journal.copied())
}

/// Appends the lines of all that a core keeps.
fn push_state(alloc: Global, text: &mut Vec<u8>, parts: &Parts) -> Result<(), AllocError>
    ensures { (so : Replays parts.now) → OnOk result (text.new.items
        ≡ text.old.items ++ state_text (booted_of_setup parts.now.setup) so.kernel parts.now.journal.events) }
{
    push_slots(
        alloc,
        text,
        parts.slots.as_slice(),
        parts.cancellations.as_slice(),
    )?;
    push_masks(text, parts.slots.as_slice())?;
    push_insides(text, parts.processors.as_slice())?;
    push_instances(text, &parts.tables)?;
    push_counts(text, parts)
}

/// Appends what the parts of a core answer to a question.
fn push_parts(
    alloc: Global,
    text: &mut Vec<u8>,
    parts: &Parts,
    question: &Question,
) -> Result<(), AllocError>
    requires { CanTell parts.now.journal.keeps question.now }
    ensures { (so : Replays parts.now) → OnOk result (text.new.items
        ≡ text.old.items ++ answer_of_kernel (booted_of_setup parts.now.setup) so.kernel parts.now.journal.events question.now) }
{
    match question {
        Question::Watch(_) => Ok(()),
        Question::State => push_state(alloc, text, parts),
        Question::Session(number) => push_session(text, &parts.tables.sessions, *number),
        Question::Buffer(cookie) => push_registered(alloc, text, &parts.tables.registry, *cookie),
        Question::Events { from, count } => push_kept(text, &parts.journal, *from, *count),
    }
}

#[tactic(auto, using(crate::proofs::Tables::can_tell))]
/// Appends what a core answers to a question. To be watched is no matter of the core. Events are asked of a core that keeps
/// them.
pub fn push_told(
    alloc: Global,
    text: &mut Vec<u8>,
    core: &Core,
    question: &Question,
) -> Result<(), AllocError>
    requires { CanTell (terms_of core.now).keeps question.now }
    ensures { OnOk result (option_map
        (λ (kernel : Kernel). text.old.items ++ answer_of_kernel (booted_of core.now) kernel (events_of core.now) question.now)
        (kernel_of core.now) ≡ Some text.new.items) }
{
    push_parts(alloc, text, &core.parts, question)
}
