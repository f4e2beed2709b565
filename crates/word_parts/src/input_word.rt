//! A word that reads an input: how that is read and served, and the call of a word.

ghost use Rattle.std.specs.Prelude.{◌≡◌, ◌≢◌, ◌≤◌, ◌+◌, ◌^◌, ℕ, List, [], Err, IfErr, IfOk, IfSome, OnOk, length};
ghost use Rattle.ports.specs.Port.{Appends, Rose};
ghost use Rattle.word_parts.specs.BuiltIn.{BuiltIn, built_in};
ghost use Rattle.word_parts.specs.Call.{Call, KeepsOver, KeepsTo};
ghost use Rattle.word_parts.specs.Faults.{TellsFaults};
ghost use Rattle.word_parts.specs.Input.{IsReadWhole, TakesAtMost};
ghost use Rattle.word_parts.specs.Word.{Answered, HasOneMeaning, IsFaultOf, IsUnservedAs, RanAs, Word};

use crate::answer::answer_fault;
use crate::input::read_whole;
use crate::status::Status;
use native_tas::Natives;
use ports::{Sink, Source};
use std::alloc::Global;
use trace_text::TraceFault;

/// A word that reads an input: its grammar, and what it does with what an input spells.
pub trait InputWord: Copy {
    /// What is read of an input.
    type Content: Drop;

    /// What an input can spell beside these applications and drivers, which fault of it is the first, and what is written for it.
    ghost word: { Self → BuiltIn → Word };

    /// What a call of it over an input shows besides what every word keeps to.
    ghost Shows: { Self → BuiltIn → List ℕ → Call → Type 0 };

    /// This was read of the input.
    ghost IsRead: { Self → BuiltIn → List ℕ → Self.Content → Type 0 };

    /// What holds of the word. It does nothing.
    fn laws(self)
        // An input spells one thing, or it has a fault, and not both.
        ensures one_meaning { (built : BuiltIn) (input : List ℕ) → HasOneMeaning (word self built) input }
        // A call that keeps to what every word does shows that besides.
        ensures shown { (built : BuiltIn) (input : List ℕ) (call : Call)
            → KeepsOver (word self built) input call → Shows self built input call };

    /// Reads an input whole, beside these built-in applications.
    fn read(
        self,
        alloc: Global,
        input: &[u8],
        natives: &Natives,
    ) -> Result<Self::Content, TraceFault>
        requires { length input.now ≤ 2 ^ 24 }
        ensures read { IfOk result (IsRead self (built_in natives.now) input.now) }
        ensures bad { IfErr result (IsFaultOf (word self (built_in natives.now)) input.now) };

    /// Does what the word does with what was read, and writes what it is answered with.
    fn serve<K: Sink>(
        self,
        alloc: Global,
        content: Self::Content,
        out: &mut K,
        natives: &Natives,
    ) -> Status
        requires { (input : List ℕ) × IsRead self (built_in natives.now) input content }
        ensures answered { (input : List ℕ) → IsRead self (built_in natives.now) input content
            → Answered (word self (built_in natives.now)) input result (K.held out.old) (K.held out.new) }
        ensures faults { TellsFaults result (K.faults out.old) (K.faults out.new) };
}

/// What the input spells in the word's grammar: it is read to its end, and then in the grammar. One that isn't read whole, or that leaves
/// the grammar, is answered, and the status is the `Err`. Its bytes are free at the return.
pub fn read_input<W: InputWord, S: Source, K: Sink>(
    alloc: Global,
    word: W,
    input: &mut S,
    out: &mut K,
    natives: &Natives,
) -> Result<W::Content, Status>
    // ---- An input that was read: nothing is written yet.
    ensures read { IfOk result (λ content. (bytes : List ℕ) × IsReadWhole bytes (S.left input.old) (S.left input.new)
        × W.IsRead word (built_in natives.now) bytes content) }
    ensures unwritten { OnOk result ((K.held out.new ≡ K.held out.old) × (K.faults out.new ≡ K.faults out.old)) }

    // ---- Any other.
    ensures unserved { IfErr result (λ status. IfSome (S.left input.old) (λ bytes.
        RanAs bytes (IsUnservedAs (W.word word (built_in natives.now)) bytes status (K.held out.old) (K.held out.new))
        (S.left input.new) status (K.held out.old) (K.held out.new))) }
    ensures memory { result ≡ Err Status.Memory → K.held out.new ≡ K.held out.old }
    ensures read_fault { result ≡ Err Status.ReadFault →
        Rose (S.faults input.old) (S.faults input.new) × Appends (K.held out.old) (K.held out.new) [] }
    ensures faults { IfErr result (λ status. TellsFaults status (K.faults out.old) (K.faults out.new)) }

    // ---- Reading ends, and counts of faults never fall.
    ensures taken { TakesAtMost (2 ^ 24 + 1) (S.left input.old) (S.left input.new) }
    ensures input_count { S.faults input.old ≤ S.faults input.new }
    ensures input_stays { result ≢ Err Status.ReadFault → S.faults input.new ≡ S.faults input.old }
{
    let bytes = read_whole(alloc, input)?;
    match word.read(alloc, bytes.as_slice(), natives) {
        Ok(content) => Ok(content),
        Err(fault) => Err(answer_fault(alloc, fault, out)),
    }
}

/// Reads the input to its end, then reads it in the word's grammar, and serves it; the first answer met ends the call. Want of memory
/// may come at any time.
pub fn run_word<W: InputWord, S: Source, K: Sink>(
    alloc: Global,
    word: W,
    input: &mut S,
    out: &mut K,
    natives: &Natives,
) -> Status
    // ---- All that the word keeps to: the input, each status, and when an input is served or refused whole; and what it shows.
    ensures keeps { KeepsTo (W.word word (built_in natives.now)) (W.Shows word (built_in natives.now)) (record {
      result = result;
      told = S.left input.old;
      left = S.left input.new;
      old = K.held out.old;
      new = K.held out.new;
      source_old = S.faults input.old;
      source_new = S.faults input.new;
      sink_old = K.faults out.old;
      sink_new = K.faults out.new;
    }) }

    // ---- Faults of the ports.
    ensures read_fault { result ≡ Status.ReadFault →
        Rose (S.faults input.old) (S.faults input.new) × Appends (K.held out.old) (K.held out.new) [] }
    ensures faults { TellsFaults result (K.faults out.old) (K.faults out.new) }

    // ---- Reading ends, and counts of faults never fall.
    ensures taken { TakesAtMost (2 ^ 24 + 1) (S.left input.old) (S.left input.new) }
    ensures input_count { S.faults input.old ≤ S.faults input.new }
    ensures input_stays { result ≢ Status.ReadFault → S.faults input.new ≡ S.faults input.old }
{
    word.laws();
    match read_input(alloc, word, input, out, natives) {
        Ok(content) => word.serve(alloc, content, out, natives),
        Err(status) => status,
    }
}
