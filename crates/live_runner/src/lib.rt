//! A conversation with a core, over any port.
//!
//! [`live`] hears a line, says its answer at once, and only then hears the next line. A line may also ask what the core
//! keeps, or that exits are watched. [`run`] does so where a command line has no words, and gives the exit status.
//!
//! `specs/` has `Turns`, what one turn comes to, `Talks`, what all of them do, and `Program`, what `run` does by its
//! command line. The definitions of a conversation are those of `live_play`.
//!
//! It touches the port of lines and the sink that it is lent and the RAM of its player, and no thread.
//!
//! # What is proved
//!
//! - `live`, over every port that hasn't ended, whatever lines it hears and when: the port's history grows by a
//!   conversation from the first line on, in which lines may ask and exits may be watched. Each line has its answer
//!   before the next one is heard, to the byte, and by what its end may leave behind the last answer
//!   (`TalksWithQuestions`).
//! - Behind each turn, and behind an answer of which a part was said, once a boot counts, the lines that count have a
//!   play, and of it and of the answers to the lines of a trace with signals holds what `live_play` says (`AreHeld`):
//!   the history is legal, with the kernel's own answers, and the `ret` lines are its exits, one for each in their
//!   order.
//! - Where nothing that was heard asks or turns history off (`HearsNoQuestion`), it is the conversation that it is
//!   without such lines (`Talks`).
//! - What is left to be heard loses the lines of that conversation, in their order, and what was written grows by their
//!   answers, in theirs, where the port tells these, as a `StdPort` does whose reader and writer do (`HappenInTurn`).
//!   Which of them comes first the history alone tells.
//! - The port has come to the end that `live` answers, with its cause; want of memory alone may be answered where the
//!   port goes on (`IsEndOf`), also behind 2^64 - 1 turns. A fault of reading or of writing is answered only where the
//!   port has counted it, and no other was counted (`faults_behind`).
//! - `run` does what the program is called for, by its command line (`IsRefused`, `HoldsTo`). Where there are words
//!   nothing is heard, and the status is 2 only where the usage line was written, 5 only where the sink counted a
//!   fault, behind a part of it, and else 6, where nothing was written. Without words nothing is put into the sink, and
//!   the status is that of the end of one call of `live`: 0, 4, 5 or 6. Of these 4 comes only where the port counted a
//!   fault of reading, and 5 only where it counted one of writing; at 0 and 6 it counted none (`CountsFaults`).
#![tactic(auto)]

mod conversing;
mod ending;
mod program;
mod talk;

pub use conversing::live;
pub use line_port::Finish;
pub use program::run;
