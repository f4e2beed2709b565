//! The words that write and read journals.
//!
//! `record` plays a text trace and writes the journal of its play in place of its lines; `audit` reads a journal and writes whether
//! it is a legal and steady history of its boot; `compare` reads two and writes whether they show the same of a session, or of the
//! sessions that share one instance. Each is a word that reads an input, and is called and answers as every one does
//! ([`word_parts::InputWord`]).
//!
//! It touches the source and the sink that it is lent and the RAM of its cores, and no thread.
//!
//! # What is proved
//!
//! - `Record` plays a text trace as `run` does and writes the bytes of its journal: its boot, and the history of its
//!   play, up to an entry that is refused. `Audit` reads the bytes of a journal, behind which nothing stands, and
//!   writes `audit`'s verdict on it. `Compare` reads those of two, the second right behind the end of the first, and
//!   writes what `session_compare` says that they show of a session or of a group.
//! - Each keeps to what every word does (`Keeps`): its statuses with what was then written, each input within the
//!   limits served whole, and each other refused by its first fault, or want of memory.
//! - Each journal that bytes within the input limit spell is answered so by `audit`, where no port fails, or memory is
//!   wanting (`Audits`), and each two by `compare` (`Compares`).
//! - Beside at most sixteen built-in applications whose UUIDs are apart, each such journal has a verdict, and each two
//!   have a comparison of each session and group: so neither word can refuse what it has in its grammar
//!   (`journals_have_answers`).
//! - Where `record` wrote a journal to its end, that is the history of a play that is true to the kernel, and steady,
//!   and the bytes spell it alone with the verdict Legal (`Records`). So `audit` of them writes `legal` and the number
//!   of its events, unless they are longer than an input may be, a port fails or memory is wanting
//!   (`recorded_is_audited_legal`).
//! - Whatever `compare` wrote of two journals, in each that is a legal history the session or the group was answered as
//!   its machine alone answers, and where that was `same`, it was answered the same in both (`WasCompared`).
//!
//! The check works out the journal of a call that asks for the core's UID, its verdict, and that of the same with
//! another register; that a second journal is missing, and a byte behind the end of one.
#![tactic(auto)]

mod auditing;
mod comparing;
mod examples;
mod laws;
mod playing;
mod reading;
mod recording;

pub use auditing::Audit;
pub use compare_model::Subject;
pub use comparing::Compare;
pub use examples::worked_examples;
pub use laws::{journals_have_answers, recorded_is_audited_legal};
pub use recording::Record;
pub use session_compare::{Compared, ReadJournal, compare, compare_groups};
