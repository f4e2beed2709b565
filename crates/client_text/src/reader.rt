//! Taking lines one after the other.

ghost use Rattle.std.specs.Prelude.{◌≡◌, ℕ, [], List, false, true};
ghost use Rattle.std.specs.List.{list_all};
ghost use Rattle.client_text.specs.Grammar.{piece_fault};
ghost use Rattle.client_text.specs.Judging.{IsKept, header_fault};
ghost use Rattle.client_text.specs.Rules.{after_line, call_of, call_rules, close_rules, header_rules, invoke_of, invoke_rules, is_header, is_opened, line_rules, no_lines, open_of, open_rules, opens, script_in, thread_limits, with_call};
ghost use Rattle.client_text.specs.declared.script.ScriptCall.TheVariants as call;
ghost use Rattle.text_lines.specs.Lines.{is_skipped};
ghost use Rattle.text_lines.specs.Words.{words_of};
ghost use Rattle.trace_text.specs.Judging.{IsEnded, IsPut, IsTaken};
ghost use Rattle.trace_text.specs.Rules.{is_text_byte, kind_named, word};
ghost use Rattle.trace_text.specs.Rules as trace;

use crate::call_kind::CallKind;
use crate::line::{first_word, has_between, word_at, words_behind};
use crate::said::{before_params, cancel_number, invoke_of, is_two_or_more, name_of, open_of};
use crate::script::{Script, ScriptCall};
use base::Sequence;
use std::alloc::Global;
use std::marker::Model;
use text_lines::is_skipped;
use trace_text::{BadKind, Builder, LineFault, LineKind, Trace, has_words, is_text};
use uuid::Uuid;

/// Whether lines of this kind are of the header.
fn is_header(kind: LineKind) -> bool
    ensures { result ≡ is_header kind }
{
    matches!(
        kind,
        LineKind::Boot | LineKind::Ta | LineKind::Mem | LineKind::Key
    )
}

/// Whether a call opens a session under this name.
fn opens(call: &ScriptCall, name: &[u8]) -> bool
    ensures { result ≡ opens name.now call.now }
{
    match call {
        ScriptCall::Open { name: opened, .. } => opened.as_slice() == name,
        ScriptCall::Invoke { .. } | ScriptCall::Close { .. } => false,
    }
}

/// The script of a header, which is a trace without items, and of calls.
fn script_of(header: Trace, calls: Vec<ScriptCall>) -> Script
    ensures { result ≡ record { boot = header.boot; fills = header.fills; calls = calls.items } }
{
    let Trace {
        boot,
        fills,
        items: _,
    } = header;
    Script {
        boot,
        fills,
        calls: Sequence::of(calls),
    }
}

/// The script that the lines so far give.
#[derive(Drop)]
pub(crate) struct Reader {
    header: Builder,
    calls: Vec<ScriptCall>,
}

impl Model for Reader {
    ghost use Rattle.client_text.specs.Rules.{ScriptFront};

    ghost Value = { ScriptFront };

    ghost view = { λ r. record { header = r.header; calls = r.calls.items } };
}

impl Reader {
    /// Before the first line.
    pub(crate) fn new(alloc: Global) -> Reader
        ensures { result ≡ no_lines }
    {
        Reader {
            header: Builder::new(alloc),
            calls: Vec::new(alloc),
        }
    }

    /// Whether a session was opened under this name.
    fn is_opened(&self, name: &[u8]) -> bool
        ensures { result ≡ is_opened self.now.calls name.now }
    {
        self.calls.iter().any(|call| opens(call, name))
    }

    /// Adds a call behind the others.
    fn push_call(&mut self, call: ScriptCall) -> Result<(), LineFault>
        ensures { IsPut result (with_call self.old call) self.new }
    {
        self.calls.push(call)?;
        Ok(())
    }

    /// A line `open`.
    fn take_open(&mut self, alloc: Global, line: &[u8]) -> Result<(), LineFault>
        ensures { IsTaken result (open_rules self.old (words_of line.now)) (with_call self.old (open_of (words_of line.now))) self.new }
    {
        if !has_between(line, 3, 7) {
            return Err(LineFault::Broken(BadKind::Count));
        }
        if self.header.cpus().is_none() {
            return Err(LineFault::Broken(BadKind::Place));
        }
        let name = word_at(line, 1);
        let call = open_of(alloc, name, word_at(line, 2), words_behind(line, 3))?;
        if self.is_opened(name) {
            return Err(LineFault::Broken(BadKind::Name));
        }
        self.push_call(call)
    }

    /// A line `invoke`.
    fn take_invoke(&mut self, alloc: Global, line: &[u8]) -> Result<(), LineFault>
        ensures { IsTaken result (invoke_rules self.old (words_of line.now)) (with_call self.old (invoke_of (words_of line.now))) self.new }
    {
        let cancel = cancel_number(word_at(line, 3));
        let before = before_params(cancel);
        if !has_between(line, 3, before + 4) {
            return Err(LineFault::Broken(BadKind::Count));
        }
        if self.header.cpus().is_none() {
            return Err(LineFault::Broken(BadKind::Place));
        }
        let name = word_at(line, 1);
        let call = invoke_of(
            alloc,
            name,
            word_at(line, 2),
            cancel,
            words_behind(line, before),
        )?;
        if !self.is_opened(name) {
            return Err(LineFault::Broken(BadKind::Name));
        }
        self.push_call(call)
    }

    /// A line `close`.
    fn take_close(&mut self, alloc: Global, line: &[u8]) -> Result<(), LineFault>
        ensures { IsTaken result (close_rules self.old (words_of line.now)) (with_call self.old (call.Close (word (words_of line.now) 1))) self.new }
    {
        if !has_words(line, 1) {
            return Err(LineFault::Broken(BadKind::Count));
        }
        if self.header.cpus().is_none() {
            return Err(LineFault::Broken(BadKind::Place));
        }
        let word = word_at(line, 1);
        let name = name_of(alloc, word)?;
        if !self.is_opened(word) {
            return Err(LineFault::Broken(BadKind::Name));
        }
        self.push_call(ScriptCall::Close { name })
    }

    /// The line of a call.
    fn take_call(&mut self, alloc: Global, kind: CallKind, line: &[u8]) -> Result<(), LineFault>
        ensures { IsTaken result (call_rules kind self.old (words_of line.now)) (with_call self.old (call_of kind (words_of line.now))) self.new }
    {
        match kind {
            CallKind::Open => self.take_open(alloc, line),
            CallKind::Invoke => self.take_invoke(alloc, line),
            CallKind::Close => self.take_close(alloc, line),
        }
    }

    /// What is wrong with a line of the header before its words are read.
    fn header_fault(&self, kind: LineKind, line: &[u8]) -> Option<BadKind>
        ensures { result ≡ header_fault kind self.now (words_of line.now) }
    {
        if !is_header(kind) {
            return Some(BadKind::Item);
        }
        if !has_words(line, kind.words_behind()) {
            return Some(BadKind::Count);
        }
        if !self.calls.is_empty() {
            return Some(BadKind::Place);
        }
        None
    }

    /// A line of the header.
    fn take_header(&mut self, alloc: Global, natives: &[Uuid], line: &[u8]) -> Result<(), LineFault>
        requires text { list_all is_text_byte line.now ≡ true }
        requires said { is_skipped line.now ≡ false }
        ensures { IsTaken result
            (header_rules (kind_named (word (words_of line.now) 0)) natives.now self.old (words_of line.now))
            (record self.old { header = trace.after_line self.old.header line.now }) self.new }
    {
        let Some(kind) = LineKind::named(first_word(line)) else {
            return Err(LineFault::Broken(BadKind::Item));
        };
        if let Some(fault) = self.header_fault(kind, line) {
            return Err(LineFault::Broken(fault));
        }
        if let Err(fault) = self.header.take(alloc, natives, line) {
            return Err(fault);
        }
        check_threads(kind, line)
    }

    /// Takes a line, which is given without its line feed.
    pub(crate) fn take(
        &mut self,
        alloc: Global,
        natives: &[Uuid],
        line: &[u8],
    ) -> Result<(), LineFault>
        ensures { IsTaken result (line_rules natives.now self.old true line.now) (after_line self.old line.now) self.new }
    {
        if !is_text(line) {
            return Err(LineFault::Broken(BadKind::Byte));
        }
        if is_skipped(line) {
            return Ok(());
        }
        match CallKind::named(first_word(line)) {
            Some(kind) => self.take_call(alloc, kind, line),
            None => self.take_header(alloc, natives, line),
        }
    }

    /// The script, where the text ends with these bytes behind its last line feed.
    pub(crate) fn finish(self, rest: &[u8]) -> Result<Script, BadKind>
        requires { self.header.items ≡ [] }
        ensures { (natives : List (List ℕ)) → IsEnded result (piece_fault natives self rest.now []) (script_in self) }
    {
        let Reader { header, calls } = self;
        match header.finish_text(rest) {
            Ok(header) => Ok(script_of(header, calls)),
            Err(kind) => Err(kind),
        }
    }
}

/// The fault of a boot with too few threads.
fn check_threads(kind: LineKind, line: &[u8]) -> Result<(), LineFault>
    ensures { IsKept result (thread_limits kind (words_of line.now)) }
{
    match kind {
        LineKind::Boot if !is_two_or_more(word_at(line, 2)) => {
            Err(LineFault::Broken(BadKind::Range))
        }
        _ => Ok(()),
    }
}
