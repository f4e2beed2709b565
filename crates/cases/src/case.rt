ghost use Rattle.std.specs.Prelude.{◌≡◌, ◌↔◌, [], ◌∷◌, ◌++◌, IfOk, IsNone, OnOk, take};

use native_tas::Natives;
use ports::{MemSink, MemSource, NoPace};
use std::alloc::{AllocError, Global};
use std::sync::Wait;
use std::thread::Threads;
use trace_runner::{AtEnd, run};

/// Which bytes of a case are being read.
#[derive(Clone, Copy)]
enum Part {
    Input,
    Output,
}

/// The block of processor 0, with the places of each of its answers, where these are its lines and no other processor comes
/// in.
fn block_of(alloc: Global, lines: &str) -> Result<Vec<u8>, AllocError> {
    let mut block = Vec::from_slice(alloc, b"cpu 0\n")?;
    let mut entry_at = 0u64;
    for line in lines.lines() {
        block.extend_from_slice(line.as_bytes())?;
        if line.starts_with("ret ") {
            let exit_at = entry_at.wrapping_add(1);
            block.extend_from_slice(format!(in alloc; " at {entry_at} {exit_at}")?.as_bytes())?;
            entry_at = exit_at.wrapping_add(1);
        }
        block.push(b'\n')?;
    }
    Ok(block)
}

/// Bytes that stand in the input from a place on, in place of as many others.
#[derive(Drop)]
struct Change {
    at: u32,
    bytes: Vec<u8>,
}

impl Change {
    /// Puts the bytes, as far as the input reaches.
    fn put(&self, input: &mut [u8]) {
        let at = (self.at as usize).min(input.len());
        let (_, behind) = input.split_at_mut(at);
        let count = behind.len().min(self.bytes.len());
        behind[..count].copy_from_slice(&self.bytes.as_slice()[..count]);
    }
}

/// In what a run is not what its case says.
#[derive(Clone, Copy)]
enum Difference {
    Status,
    Output,
}

/// What a run of a case at a cut came to.
#[derive(Drop)]
struct Outcome {
    cut: u32,
    status: u32,
    sink: MemSink,
}

/// What the top call is given, and the output that it is to write.
#[derive(Drop)]
pub struct Case {
    name: String,
    words: Vec<String>,
    input: Vec<u8>,
    output: Vec<u8>,
    part: Part,
    /// What is changed in the input when it runs.
    changes: Vec<Change>,
    /// It runs once with each number of bytes of the input from the first cut to the last, or with all where there are
    /// fewer.
    first_cut: u32,
    last_cut: u32,
    /// The calls of the source and of the sink that fail, counted from 0.
    failing_takes: Vec<u32>,
    failing_puts: Vec<u32>,
}

impl Case {
    /// A case of this name, with no words, no bytes, no change, no cut and no call that fails.
    pub fn new(alloc: Global, name: &str) -> Result<Case, AllocError> {
        Ok(Case {
            name: String::from_str(alloc, name)?,
            words: Vec::new(alloc),
            input: Vec::new(alloc),
            output: Vec::new(alloc),
            part: Part::Input,
            changes: Vec::new(alloc),
            first_cut: u32::MAX,
            last_cut: u32::MAX,
            failing_takes: Vec::new(alloc),
            failing_puts: Vec::new(alloc),
        })
    }

    /// The same words and input under another name, with no output, no change, no cut and no call that fails.
    pub fn begin_again(&mut self, alloc: Global, name: &str) -> Result<(), AllocError>
        ensures { OnOk result ((self.new.words ≡ self.old.words) × (self.new.input ≡ self.old.input)) }
    {
        self.name = String::from_str(alloc, name)?;
        self.output = Vec::new(alloc);
        self.changes = Vec::new(alloc);
        self.first_cut = u32::MAX;
        self.last_cut = u32::MAX;
        self.failing_takes = Vec::new(alloc);
        self.failing_puts = Vec::new(alloc);
        Ok(())
    }

    /// The same input by the word `threads`, under another name. The lines of the output, which are those of one processor, have
    /// become its block.
    pub fn begin_by_threads(&mut self, alloc: Global, name: &str) -> Result<(), AllocError> {
        let lines = String::from_utf8_lossy(alloc, self.output.as_slice())?;
        let block = block_of(alloc, lines.as_str())?;
        self.begin_again(alloc, name)?;
        self.say_word(alloc, "threads")?;
        self.output = block;
        Ok(())
    }

    /// The journal that the word `record` writes of the same input, by the word `audit`, under another name.
    pub fn begin_by_audit<R: Threads + Wait + Sync>(
        &mut self,
        rt: &R,
        alloc: Global,
        natives: &Natives,
        name: &str,
    ) -> Result<(), AllocError> {
        self.begin_again(alloc, name)?;
        self.say_word(alloc, "record")?;
        let recorded = self.run_at(rt, alloc, natives, u32::MAX)?;
        self.input = Vec::from_slice(alloc, recorded.sink.bytes())?;
        self.say_word(alloc, "audit")
    }

    /// The command line is this word.
    fn say_word(&mut self, alloc: Global, word: &str) -> Result<(), AllocError> {
        self.words = Vec::new(alloc);
        self.push_words(alloc, word)
    }

    /// Adds the words of a line to the command line.
    pub fn push_words(&mut self, alloc: Global, words: &str) -> Result<(), AllocError> {
        for word in words.split_whitespace() {
            self.words.push(String::from_str(alloc, word)?)?;
        }
        Ok(())
    }

    /// The bytes to come are of the input.
    pub fn begin_input(&mut self)
        ensures { self.new.part ≡ Part.Input }
    {
        self.part = Part::Input;
    }

    /// The bytes to come are of the output.
    pub fn begin_output(&mut self)
        ensures { self.new.part ≡ Part.Output }
    {
        self.part = Part::Output;
    }

    /// Adds bytes to the part that was begun.
    pub fn push_bytes(&mut self, bytes: &[u8]) -> Result<(), AllocError>
        ensures input { self.old.part ≡ Part.Input
            → OnOk result (self.new.input.items ≡ self.old.input.items ++ bytes.now) }
        ensures output { self.old.part ≡ Part.Output
            → OnOk result (self.new.output.items ≡ self.old.output.items ++ bytes.now) }
    {
        match self.part {
            Part::Input => self.input.extend_from_slice(bytes),
            Part::Output => self.output.extend_from_slice(bytes),
        }
    }

    /// So many lines of this text.
    pub fn push_lines(&mut self, count: u32, text: &str) -> Result<(), AllocError> {
        for _ in 0..count {
            self.push_bytes(text.as_bytes())?;
            self.push_bytes(b"\n")?;
        }
        Ok(())
    }

    /// A comment line of so many bytes, its line feed included.
    pub fn push_comment(&mut self, length: u32) -> Result<(), AllocError> {
        for _ in 1..length {
            self.push_bytes(b"#")?;
        }
        self.push_bytes(b"\n")
    }

    /// So many zeros.
    pub fn push_zeros(&mut self, count: u32) -> Result<(), AllocError> {
        for _ in 0..count {
            self.push_bytes(&[0])?;
        }
        Ok(())
    }

    /// The bytes of the part that was begun from this place on stand there so many times in all.
    pub fn repeat(&mut self, alloc: Global, at: u32, count: u32) -> Result<(), AllocError> {
        let bytes = match self.part {
            Part::Input => copied_from(alloc, self.input.as_slice(), at)?,
            Part::Output => copied_from(alloc, self.output.as_slice(), at)?,
        };
        for _ in 1..count {
            self.push_bytes(bytes.as_slice())?;
        }
        Ok(())
    }

    /// The source's call of this number, counted from 0, fails.
    pub fn fail_take(&mut self, call: u32) -> Result<(), AllocError>
        ensures { OnOk result (self.new.failing_takes.items ≡ self.old.failing_takes.items ++ call ∷ []) }
    {
        self.failing_takes.push(call)?;
        Ok(())
    }

    /// The sink's call of this number, counted from 0, fails.
    pub fn fail_put(&mut self, call: u32) -> Result<(), AllocError>
        ensures { OnOk result (self.new.failing_puts.items ≡ self.old.failing_puts.items ++ call ∷ []) }
    {
        self.failing_puts.push(call)?;
        Ok(())
    }

    /// As it runs, the input has new bytes from a place on. Says whether the old ones stand there, as many.
    pub fn change(
        &mut self,
        alloc: Global,
        at: u32,
        old: &[u8],
        new: &[u8],
    ) -> Result<bool, AllocError>
        ensures { OnOk result (self.new.input ≡ self.old.input) }
    {
        let first = (at as usize).min(self.input.len());
        let fits = self.input.as_slice()[first..].starts_with(old) && old.len() == new.len();
        if fits {
            let bytes = Vec::from_slice(alloc, new)?;
            self.changes.push(Change { at, bytes })?;
        }
        Ok(fits)
    }

    /// As it runs, the bytes of the input from a first place to a second stand behind those from there to a third. Says whether
    /// there are such bytes.
    pub fn swap(
        &mut self,
        alloc: Global,
        first: u32,
        second: u32,
        third: u32,
    ) -> Result<bool, AllocError>
        ensures { OnOk result (self.new.input ≡ self.old.input) }
    {
        let fits = first < second && second < third && third as usize <= self.input.len();
        if fits {
            let input = self.input.as_slice();
            let mut bytes = Vec::from_slice(alloc, &input[second as usize..third as usize])?;
            bytes.extend_from_slice(&input[first as usize..second as usize])?;
            self.changes.push(Change { at: first, bytes })?;
        }
        Ok(fits)
    }

    /// It runs once with each number of bytes of its input from the first to the last.
    pub fn cut(&mut self, first: u32, last: u32)
        ensures { (self.new.first_cut ≡ first) × (self.new.last_cut ≡ last) }
    {
        self.first_cut = first;
        self.last_cut = last;
    }

    /// The input up to a cut.
    fn input_to(&self, alloc: Global, cut: u32) -> Result<Vec<u8>, AllocError>
        ensures { IfOk result (λ bytes. bytes.items ≡ take cut self.now.input.items) }
    {
        let count = (cut as usize).min(self.input.len());
        Vec::from_slice(alloc, &self.input.as_slice()[..count])
    }

    /// The input up to a cut, with its changes.
    fn changed_to(&self, alloc: Global, cut: u32) -> Result<Vec<u8>, AllocError> {
        let mut bytes = self.input_to(alloc, cut)?;
        for change in &self.changes {
            change.put(bytes.as_mut_slice());
        }
        Ok(bytes)
    }

    /// Runs the case at each of its cuts, beside these built-in applications, and says what came of it.
    pub fn verdict<R: Threads + Wait + Sync>(
        &self,
        rt: &R,
        alloc: Global,
        natives: &Natives,
        wanted: u32,
    ) -> Result<String, AllocError> {
        for cut in self.first_cut..=self.last_cut.max(self.first_cut) {
            if let Some(told) = self.fault_at(rt, alloc, natives, cut, wanted)? {
                return Ok(told);
            }
        }
        let name = self.name.as_str();
        format!(in alloc; "{name} ok")
    }

    /// Runs the case at a cut.
    fn run_at<R: Threads + Wait + Sync>(
        &self,
        rt: &R,
        alloc: Global,
        natives: &Natives,
        cut: u32,
    ) -> Result<Outcome, AllocError> {
        let mut source = MemSource::new(self.changed_to(alloc, cut)?, self.failing_takes.clone()?);
        let mut sink = MemSink::new(alloc, self.failing_puts.clone()?);
        let words = self.words.as_slice();
        let status = run(
            rt,
            alloc,
            words,
            &mut source,
            &mut sink,
            natives,
            &NoPace,
            AtEnd::Free,
        )
        .number();
        Ok(Outcome {
            cut,
            status: u32::from(status),
            sink,
        })
    }

    /// Runs the case at a cut, and says what differs from the case, if anything does.
    fn fault_at<R: Threads + Wait + Sync>(
        &self,
        rt: &R,
        alloc: Global,
        natives: &Natives,
        cut: u32,
        wanted: u32,
    ) -> Result<Option<String>, AllocError> {
        let outcome = self.run_at(rt, alloc, natives, cut)?;
        let told = match self.difference(outcome.status, wanted, outcome.sink.bytes()) {
            None => return Ok(None),
            Some(Difference::Status) => self.status_told(alloc, &outcome, wanted)?,
            Some(Difference::Output) => self.output_told(alloc, &outcome)?,
        };
        Ok(Some(told))
    }

    /// Says that a run ended with another status.
    fn status_told(
        &self,
        alloc: Global,
        outcome: &Outcome,
        wanted: u32,
    ) -> Result<String, AllocError> {
        let name = self.name.as_str();
        let (cut, status) = (outcome.cut, outcome.status);
        format!(in alloc; "{name} at cut {cut} ended with {status}, and not with {wanted}")
    }

    /// Says what a run wrote that is another output.
    fn output_told(&self, alloc: Global, outcome: &Outcome) -> Result<String, AllocError> {
        let name = self.name.as_str();
        let cut = outcome.cut;
        let text = String::from_utf8_lossy(alloc, outcome.sink.bytes())?;
        format!(in alloc; "{name} at cut {cut} wrote {text}")
    }

    /// In what a run with this status and output is not what the case says, if in anything.
    fn difference(&self, status: u32, wanted: u32, written: &[u8]) -> Option<Difference>
        ensures { IsNone result ↔ (status ≡ wanted) × (written.now ≡ self.now.output.items) }
    {
        if status != wanted {
            return Some(Difference::Status);
        }
        if written != self.output.as_slice() {
            return Some(Difference::Output);
        }
        None
    }
}

/// A copy of the bytes from a place on, which are none behind their end.
fn copied_from(alloc: Global, bytes: &[u8], at: u32) -> Result<Vec<u8>, AllocError> {
    let first = (at as usize).min(bytes.len());
    Vec::from_slice(alloc, &bytes[first..])
}
