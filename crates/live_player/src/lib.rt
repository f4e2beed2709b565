//! A core in a conversation: its lines are taken one after the other.
//!
//! A [`LivePlayer`] judges each line behind those that count so far, gathers what the lines of the header say, boots
//! its core at the first line behind them, and then plays each item and each signal as it comes. What a line prints is
//! appended to the text of its answer, and where exits are watched the panics in which their calls end and what they
//! change in RAM. For that a [`Watch`] has room for the pages to which an exit can write: these alone are compared. It
//! also tells what its core keeps.
//!
//! `specs/` has `Header`, `Standing`, where a player stands behind which lines, `Taking`, how a line is taken,
//! `Panicking`, the panic in which the call of its exit has ended, and `Watching`, how a line is taken where exits are
//! watched. The definitions of an answer are those of `live_play`.
//!
//! It touches the RAM of its own processors, and no port and no thread.
//!
//! # What is proved
//!
//! - A `LivePlayer` stands behind the lines of a conversation that count (`StandsAt`): before the first item and signal
//!   with what the lines of the header have said, and from there on with a core that has come to their play. Where a
//!   boot is among the lines that count, they have a play.
//! - `take_line` takes one line more (`Judges`). It appends the lines of the answer that the definitions give it, and
//!   stands behind it; or its entry is refused, with how many bytes those before it have read, and it stands where it
//!   stood, so that at the first entry lines of the header may follow; or the line breaks a rule, by its name, which
//!   changes nothing. Of want of memory nothing is said, behind which the player is done with.
//! - `take_watched_line` does the same (`Watches`), and appends behind the line of an exit that of the panic in which
//!   its call has ended, if it did, and those of all that it has changed in its processor's RAM.
//! - `push_told` appends what is told of the play of these lines to a question (`answer_at`), with a boot among them,
//!   and changes nothing.
//! - The core's terms are those of the lines (`terms_where`): where history is off it counts its events, and its
//!   entries read at most 2^63 bytes.
#![tactic(auto)]

mod header;
mod player;
mod stage;
mod taken;
mod telling;
mod watch;
mod watching;

pub use player::LivePlayer;
pub use taken::Taken;
pub use watch::Watch;
