//! The play of a client's script on a core.
//!
//! The core of the script is booted over RAM with its fills, and its calls are made one after the other by a client ([`teec`])
//! over that core ([`core_port`]), with a supplicant that keeps files in memory. Each call that ends is a line. What the lines are
//! is defined by `client_play`, of the script alone.
//!
//! `word` is the word, `playing` plays a script, `player` has the client and makes one call, `operations` makes a call's parameters,
//! `sessions` has the names that were opened, `outcome` what a call came to, and `lines` its line.
//!
//! It touches the source and the sink that it is lent and the RAM of its port, and no thread.
//!
//! # What is proved
//!
//! - `Client` reads a client's script, plays it, and writes its text as a word of the program does (`Keeps`): its
//!   statuses with what was then written, each input within the limits served whole, and each other refused by its
//!   first fault, or want of memory.
//! - Where the text was written to its end, up to an SMC without room where there is one, it is that of the script's
//!   play, whose history is that of a trace of the client's writes and SMCs, legal from the script's boot
//!   (`PlaysScripts`). Each result in it of a call in a session that shares no instance is the one with which the
//!   session's own machine ends that call, as the outputs behind it are those of that reply, of memory where its size
//!   is below 2^32.
//! - `play` makes the calls of a client's script over a core of its boot, and writes a line of each. Where it ends all
//!   of the script's text was written (`IsToldOf`), and where an SMC has no room the text up to that call, in the play,
//!   too; at a fault of the sink or want of memory a part of it.
//! - Each call of the client over the port is its call in the play: by what `teec` says of a call over any port, and
//!   `core_port` of its SMCs. No call finds no thread, is answered strangely, or has too many RPC returns, since each
//!   script has a play.
#![tactic(auto)]

mod lines;
mod operations;
mod outcome;
mod player;
mod playing;
mod sessions;
mod word;

pub use word::Client;
