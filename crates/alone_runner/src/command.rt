//! What the words ask for.

ghost use Rattle.std.specs.Prelude.{◌≡◌, ℕ, ◌<◌, ◌^◌, [], ◌∷◌, IfSome, IsNone};
ghost use Rattle.std.specs.Fmt.{decimal};
ghost use Rattle.compare_model.specs.declared.subject.Subject.{Subject as AnySubject};
ghost use Rattle.alone_runner.specs.Words.{AskNothing, Asks, IsNumbered, Names, Say, SayNothing};

use itoa::Buffer;
use journal_runner::Subject;
use trace_text::word::uuid;
use workload::MOST_CALLS;

/// In which grammar an input is read.
#[derive(Clone, Copy)]
pub enum Grammar {
    /// That of traces as text.
    Text,
    /// That of traces as records.
    Records,
    /// That of the assembler.
    Assembler,
}

/// What the words ask for.
#[derive(Clone, Copy)]
pub enum Command {
    /// The input is read in this grammar, and what it spells is played or printed.
    Serve(Grammar),
    /// The input is read as text, the trace that it spells is played, and the journal of its play is written.
    Record,
    /// The input is read as the bytes of a journal, and the verdict on it is written.
    Audit,
    /// The input is read as the bytes of two journals, and what they show of this is written.
    Compare { subject: Subject },
    /// The input is read as the text of a trace with signals, which is played beside a desk of signals.
    Notify,
    /// The input is read as the text of a client's script, whose calls are made on a core.
    Client,
    /// The trace that a seed makes with so many calls is played, and its play is summed up.
    Work { seed: u64, count: u32 },
}

/// The number that a word says: digits alone, with no leading zero but in `0`.
fn number_in(word: &str) -> Option<u64>
    ensures found { IfSome result (λ number. (number < 2 ^ 64) × (word.now ≡ decimal number)) }
    ensures none { IsNone result → (number : ℕ) → number < 2 ^ 64 → word.now ≡ decimal number → ⊥ }
{
    let Ok(number) = word.parse::<u64>() else {
        return None;
    };
    let mut buffer = Buffer::new();
    if buffer.format(number) == word {
        Some(number)
    } else {
        None
    }
}

/// What one word asks for.
fn command_named(word: &str) -> Option<Command>
    ensures said { IfSome result (Say (word.now ∷ [])) }
    ensures nothing { IsNone result → SayNothing (word.now ∷ []) }
{
    match word {
        "run" => Some(Command::Serve(Grammar::Text)),
        "run-binary" => Some(Command::Serve(Grammar::Records)),
        "asm" => Some(Command::Serve(Grammar::Assembler)),
        "record" => Some(Command::Record),
        "audit" => Some(Command::Audit),
        "notify" => Some(Command::Notify),
        "client" => Some(Command::Client),
        _ => None,
    }
}

/// What a word names: the sessions of an application by its UUID, or one session by its number.
fn subject_of(word: &str) -> Option<Subject>
    ensures named { IfSome result (λ subject. IsNumbered subject × Names subject word.now) }
    ensures nothing { IsNone result → (subject : AnySubject) → IsNumbered subject → Names subject word.now → ⊥ }
{
    if let Some(uuid) = uuid(word.as_bytes()) {
        return Some(Subject::Group(uuid));
    }
    let number = number_in(word)?;
    if number > u64::from(u32::MAX) {
        return None;
    }
    Some(Subject::Session(number as u32))
}

/// What a word and the name of a subject ask for.
fn compare_of(word: &str, subject: &str) -> Option<Command>
    ensures said { IfSome result (Say (word.now ∷ subject.now ∷ [])) }
    ensures nothing { IsNone result → SayNothing (word.now ∷ subject.now ∷ []) }
{
    if word != "compare" {
        return None;
    }
    let subject = subject_of(subject)?;
    Some(Command::Compare { subject })
}

/// What a word and two numbers ask for.
fn work_of(word: &str, seed: &str, count: &str) -> Option<Command>
    ensures said { IfSome result (Say (word.now ∷ seed.now ∷ count.now ∷ [])) }
    ensures nothing { IsNone result → SayNothing (word.now ∷ seed.now ∷ count.now ∷ []) }
{
    if word != "work" {
        return None;
    }
    let seed = number_in(seed)?;
    let calls = number_in(count)?;
    if calls > u64::from(MOST_CALLS) {
        return None;
    }
    Some(Command::Work {
        seed,
        count: calls as u32,
    })
}

/// What these words ask for.
pub fn command_of(words: &[String]) -> Option<Command>
    ensures asked { IfSome result (Asks words.now) }
    ensures nothing { IsNone result → AskNothing words.now }
{
    match words {
        [word] => command_named(word.as_str()),
        [word, subject] => compare_of(word.as_str(), subject.as_str()),
        [word, seed, count] => work_of(word.as_str(), seed.as_str(), count.as_str()),
        _ => None,
    }
}
