//! Playing the items of a trace with signals on a core, where a desk of signals answers above it.
//!
//! A [`NotifyPlayer`] is the player of `trace_player` with a desk. It does one step after the other: an item of a processor, whose
//! lines are appended to a text, or signals of the hardware. At each exit the kernel's answer is told, or the desk's in its place, and
//! a result is written into the argument of a bottom half or a stop; later items find both. The definitions are those of `notify_play`.
//!
//! It touches the RAM of its own processors, and no port and no thread.
//!
//! # What is proved
//!
//! - `booted` and `counting` stand before the first step of a trace with signals, on a core that keeps its events or
//!   counts them, and `with_fills` on one of any terms.
//! - `take_signals` signals the values that stand behind so many items, and gives those behind them.
//! - `play_item` makes the play's step of an item, with the desk's answer in place of the kernel's and its result in
//!   the argument. It appends what it prints to the lines that it is lent, and tells the panic in which the call of its
//!   exit has ended, if it did (`panic_at_exit`), or stops where the play does; at a refused entry it stays where it
//!   was.
//! - `play_watched_item` does what `play_item` does, and keeps before an exit what stood in pages outside of which the
//!   exit and the desk leave that processor's RAM as it was (`AreKept`).
//! - What an exit asks is read off the last entry of its processor, which the core's log tells (`last_entry` of
//!   `event_log`), and which is the one that the play's definitions fold (`before-exit`): in a legal history a new call
//!   reads nothing, or first its argument's head, which lies in RAM (`heads_come_first`).
#![tactic(auto)]

mod beginning;
mod entered;
mod player;
mod watching;
mod writing;

pub use player::NotifyPlayer;
