//! What a conversation with a core is, in which each line is answered before the next one is heard.
//!
//! The crate is one of definitions, over the play of a trace with signals. `specs/` reads in the order of its modules:
//! - `Answer`: what is answered to a line, and which lines count behind it
//! - `Conversation`: what is heard and said, and how it ends
//! - `Returns`: which `ret` line is of which exit
//! - `Laws`: what holds of each conversation
//!
//! Of conversations in which lines ask, and of those with history off:
//! - `Changes`: what an exit changes in RAM
//! - `State`: the text of what a kernel keeps
//! - `Showing`: what is answered then
//! - `ShowingLaws`, `PanickingLaws`: what holds of them, and of the panics that are told
//! - `Copies`: the copy of RAM that is kept beside one
//!
//! Nothing here touches RAM, a port or a thread.
//!
//! # What is proved
//!
//! Of each conversation, whose lines may depend on the answers in any way, behind each of its turns (`turns_are_told`):
//! - the `ret` and `mem` lines that were said are those of one play, which refuses no entry and of which all holds that
//!   is said of the plays of a trace with signals: its history is legal from the boot, with the kernel's own answers,
//!   and it holds the items and signals of the lines that count in their order, each signal at its place, with what
//!   each processor is told at its exits;
//! - of the `ret` lines there is one for each exit in that history, in their order: of its processor, and with the
//!   kernel's registers, but for what the desk of signals makes of them;
//! - where no exit asks anything of the desk, the play is that of the trace without its signals.
//!
//! The lines of a conversation without `bad` and `full`, where no processor is inside in the end, are the text of a
//! trace with signals, and what `notify` writes for it is what was said (`good_conversations_are_traces`). Where no
//! exit asks anything of the desk, those that are no signals are the text of a trace, and what was said is what `run`
//! writes for that (`unasked_conversations_are_runs`).
//!
//! A line that breaks a rule, one whose entry is refused, and what is too long or cut off are answered by `bad` and
//! `full`, and change nothing (`refusals_change_nothing`); the entry that is refused would have brought the bytes that
//! all entries read above what they may. Nor does a question or a line `history` that breaks a rule change anything,
//! whether exits are watched or not, and not even that (`refused_lines_change_nothing`).
//!
//! Of the definitions of conversations in which lines may ask:
//! - What asks changes nothing that counts, and, but for `watch`, not even what is said later, so that it could as well
//!   have been left out: a line that doesn't ask is answered as it is without it, but for whether exits are watched
//!   (`questions_change_nothing`).
//! - `history off` changes how much entries may read, and whether events are told, and nothing of the lines that count:
//!   those of a trace with signals count, and are answered, as they do alone where entries may read so much
//!   (`history_off_forgets_alone`).
//! - While no entry is refused it makes no difference how much they may read (`more_bytes_change_nothing`). So it makes
//!   none whether history is off: the same lines of a trace with signals count, and the same is shown to each of them,
//!   with the panics and the lines `wrote` of exits that are watched, and to each question but one for events.
//! - Where nothing asks or turns history off, all goes as without such lines (`plain_conversations_are_as_before`).
//! - Behind the line of an exit that is watched stands the panic in which its call has ended, if it did, and then what
//!   has changed in its processor's RAM (`exits_are_watched`). Laid over what that RAM was, this gives what it is, and
//!   the RAM of every other processor is what it was. An answer behind lines that count is that of one exit, or has no
//!   line `ret`, and is then as where no exit is watched.
//! - What has changed gives what RAM is over any RAM that becomes no shorter (`changes_tell_all`), as none does
//!   (`ram_is_kept` of `play_model`).
//! - So a copy that is kept over a whole conversation is the RAM of each processor, behind each answer, where each exit
//!   was watched (`copies_are_ram`). It is kept by the bytes of the header, then by those of each line `write` that
//!   counts and of each line `wrote`.
//!
//! Behind an exit at which a panic is told its call has ended, with TEE_ERROR_TARGET_DEAD of the TEE: its slot holds it,
//! a call of the same client and session and with the same argument, with that result, or the result was written to that
//! argument, and the slot is free. Of a call that has ended none is told (`panics_end_calls`). Whatever comes then, it has
//! ended still, until it leaves its slot (`ended_calls_stay`): so each panic is told once.
//!
//! Its examples are conversations, byte for byte, and their ends. `status_of` is the status of the definitions.
#![tactic(auto)]

mod laws;
mod status;

pub use laws::{
    changes_tell_all, copies_are_ram, ended_calls_stay, exits_are_watched,
    good_conversations_are_traces, history_off_forgets_alone, more_bytes_change_nothing,
    panics_end_calls, plain_conversations_are_as_before, questions_change_nothing, questions_shown,
    refusals_change_nothing, refused_lines_change_nothing, turns_are_told,
    unasked_conversations_are_runs, worked_examples,
};
pub use line_port::Finish;
pub use status::status_of;
