ghost use Rattle.std.specs.Prelude.{◌≡◌, ◌↔◌, IsTrue, Some};
ghost use Rattle.trace_text.specs.Fault.{kind_word, fault_text};
ghost use Rattle.trace_text.specs.declared.fault.TraceFault.TheVariants.{Memory};
ghost use Rattle.trace_text.specs.declared.fault.LineFault.TheVariants.{NoRoom};
ghost use Rattle.trace_text.specs.Judging.{of_image, placed};

use std::alloc::{AllocError, AllocFailed};
use std::error::Error;
use std::fmt;
use ta_isa::ImageFault;

/// What is wrong with a line or a record of a trace. The kinds up to [`BadKind::Inside`] stand in the order in
/// which they are looked for in one line.
#[derive(Clone, Copy, Debug, PartialEq, Eq)]
pub enum BadKind {
    /// A byte that no trace has.
    Byte,
    /// The end within a line or a record.
    Cut,
    /// No such item.
    Item,
    /// A wrong number of words, or an empty word.
    Count,
    /// Before the boot, a second boot, or a header line after another line.
    Place,
    /// A number, a register or an address that is not of its form.
    Number,
    /// No UUID of the hyphenated form.
    Uuid,
    /// No even, non-zero number of hexadecimal digits.
    Hex,
    /// A number outside its limits, an application too many, or bytes outside of memory.
    Range,
    /// A processor that isn't there.
    Cpu,
    /// The UUID of an earlier application.
    Repeat,
    /// A name of a session that is opened a second time, or that isn't opened before.
    Name,
    /// An image that can't be loaded.
    Image,
    /// A processor that enters while it is inside, or leaves while it isn't.
    Inside,
    /// A processor that is still inside at the end.
    Unended,
    /// No text of the assembler.
    Asm,
}

impl BadKind {
    /// The word of this kind, as it is printed.
    pub fn word(self) -> &'static str
        ensures { result.now ≡ kind_word self }
    {
        match self {
            BadKind::Byte => "byte",
            BadKind::Cut => "cut",
            BadKind::Item => "item",
            BadKind::Count => "count",
            BadKind::Place => "place",
            BadKind::Number => "number",
            BadKind::Uuid => "uuid",
            BadKind::Hex => "hex",
            BadKind::Range => "range",
            BadKind::Cpu => "cpu",
            BadKind::Repeat => "repeat",
            BadKind::Name => "name",
            BadKind::Image => "image",
            BadKind::Inside => "inside",
            BadKind::Unended => "unended",
            BadKind::Asm => "asm",
        }
    }
}

impl fmt::Display for BadKind {
    ghost output = { λ kind. Some (kind_word kind) };

    fn fmt<W: fmt::Write>(&self, f: &mut fmt::Formatter<W>) -> fmt::Result {
        f.write_str(self.word())
    }
}

/// Why a trace could not be read.
#[derive(Clone, Copy, Debug, PartialEq, Eq)]
pub enum TraceFault {
    /// The first fault: its line or record, counted from 1, and what is wrong there.
    Bad { place: u32, kind: BadKind },
    /// Want of memory.
    Memory,
}

impl fmt::Display for TraceFault {
    ghost output = { λ fault. Some (fault_text fault) };

    fn fmt<W: fmt::Write>(&self, f: &mut fmt::Formatter<W>) -> fmt::Result {
        match self {
            TraceFault::Bad { place, kind } => write!(f, "bad trace {place} {kind}"),
            TraceFault::Memory => f.write_str("out of memory"),
        }
    }
}

impl Error for TraceFault {}

impl From<AllocError> for TraceFault {
    ghost from_gives = { λ _ e. e ≡ Memory };

    fn from(_refused: AllocError) -> TraceFault {
        TraceFault::Memory
    }
}

impl<T: Drop> From<AllocFailed<T>> for TraceFault {
    ghost from_gives = { λ _ e. e ≡ Memory };

    fn from(_refused: AllocFailed<T>) -> TraceFault {
        TraceFault::Memory
    }
}

/// Why a line was not taken.
#[derive(Clone, Copy, Debug, PartialEq, Eq)]
pub enum LineFault {
    /// What is wrong with it.
    Broken(BadKind),
    /// Want of memory.
    NoRoom,
}

impl LineFault {
    /// The fault of the trace whose line has this one.
    pub fn at(self, place: u32) -> TraceFault
        ensures { result ≡ placed place self }
    {
        match self {
            LineFault::Broken(kind) => TraceFault::Bad { place, kind },
            LineFault::NoRoom => TraceFault::Memory,
        }
    }

    /// Whether no line begins so.
    pub fn is_unknown(self) -> bool
        ensures { IsTrue result ↔ self ≡ LineFault.Broken BadKind.Item }
    {
        matches!(self, LineFault::Broken(BadKind::Item))
    }

    /// The fault of a line whose bytes are no image.
    pub fn of_image(fault: ImageFault) -> LineFault
        ensures { result ≡ of_image fault }
    {
        match fault {
            ImageFault::Memory => LineFault::NoRoom,
            _ => LineFault::Broken(BadKind::Image),
        }
    }
}

impl From<AllocError> for LineFault {
    ghost from_gives = { λ _ e. e ≡ NoRoom };

    fn from(_refused: AllocError) -> LineFault {
        LineFault::NoRoom
    }
}

impl<T: Drop> From<AllocFailed<T>> for LineFault {
    ghost from_gives = { λ _ e. e ≡ NoRoom };

    fn from(_refused: AllocFailed<T>) -> LineFault {
        LineFault::NoRoom
    }
}
