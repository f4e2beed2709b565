ghost use Rattle.std.specs.Prelude.{◌≡◌, ℕ, ◌≤◌, Option, length, take};
ghost use Rattle.line_port.specs.Faults.{faults_behind};
ghost use Rattle.line_port.specs.Finish.{finish_of_heard, finish_of_said};
ghost use Rattle.line_port.specs.History.{Says};
ghost use Rattle.line_port.specs.Told.{Happens, HearsAs, Told};
ghost use Rattle.line_port.specs.declared.faults.Faults.{Faults};
ghost use Rattle.line_port.specs.declared.finish.Finish.{Finish};

use crate::finish::Finish;

/// What a call of `hear` came to.
#[derive(Clone, Copy, Debug, PartialEq, Eq)]
pub enum Heard {
    /// A line, which a line feed ended.
    Line,
    /// A line of more than [`LONGEST_LINE`](crate::LONGEST_LINE) bytes. It was read to its end, and let go of.
    Long,
    /// The input ended within a line.
    Cut,
    /// The input is over.
    End,
    /// Reading failed. A part of a line may be lost.
    Failed,
    /// Want of memory. A part of a line may be lost.
    Memory,
}

impl Heard {
    /// How the port has come to its end by this, where it has.
    pub fn finish(self) -> Option<Finish>
        ensures { result ≡ finish_of_heard self }
    {
        match self {
            Heard::Line | Heard::Long | Heard::Cut => None,
            Heard::End => Some(Finish::Over),
            Heard::Failed => Some(Finish::ReadFault),
            Heard::Memory => Some(Finish::Memory),
        }
    }
}

/// What a call of `say` came to.
#[derive(Clone, Copy, Debug, PartialEq, Eq)]
pub enum Said {
    /// All the bytes were said.
    Done,
    /// Writing failed. A part from their front was said.
    Failed,
    /// Want of memory. Nothing was said.
    Memory,
}

impl Said {
    /// How the port has come to its end by this, where it has.
    pub fn finish(self) -> Option<Finish>
        ensures { result ≡ finish_of_said self }
    {
        match self {
            Said::Done => None,
            Said::Failed => Some(Finish::WriteFault),
            Said::Memory => Some(Finish::Memory),
        }
    }
}

/// Where lines come from, and where what is said to them goes. Behind a call that brings it to its end no more are made, so
/// that what is left of a line is never heard as one.
pub trait Port {
    /// What was heard and what was said, in its order; what is left to be heard; and what was written: each where the port tells it.
    ghost told: { Self → Told };

    /// How it has come to its end, where it has.
    ghost finish: { Self → Option Finish };

    /// How many of its calls have failed, of `hear` and of `say`. A count that has come to 2^64 - 1 stays there.
    ghost faults: { Self → Faults };

    /// Hears the next line, without the line feed that ends it. What `line` holds before is let go of; where no line was
    /// heard, what it holds then is left open. Which line comes is the other side's choice, by all that was said so far.
    fn hear(&mut self, line: &mut Vec<u8>) -> Heard
        requires { finish self.old ≡ None }
        ensures heard { HearsAs result line.new.items (told self.old) (told self.new) }
        ensures within { result ≡ Heard.Line → length line.new.items ≤ 8388736 }
        ensures finishes { finish self.new ≡ finish_of_heard result }
        ensures faults { faults self.new ≡ faults_behind (finish_of_heard result) (faults self.old) };

    /// Says the bytes, so that the other side has them all before anything more is heard.
    fn say(&mut self, bytes: &[u8]) -> Said
        requires { finish self.old ≡ None }
        ensures done { result ≡ Said.Done → Happens (Says bytes.now) (told self.old) (told self.new) }
        ensures failed { result ≡ Said.Failed →
            (n : ℕ) × Happens (Says (take n bytes.now)) (told self.old) (told self.new) }
        ensures memory { result ≡ Said.Memory → told self.new ≡ told self.old }
        ensures finishes { finish self.new ≡ finish_of_said result }
        ensures faults { faults self.new ≡ faults_behind (finish_of_said result) (faults self.old) };
}
