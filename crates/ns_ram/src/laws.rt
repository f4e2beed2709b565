//! Laws over the definitions of `specs/`, each the contract of a function that does nothing.

ghost use Rattle.std.specs.Prelude.{◌≡◌, ℕ, List, length};
ghost use Rattle.std.specs.List.{AllByRecursion};
ghost use Rattle.base.specs.Zeros.{zeros};
ghost use Rattle.ns_ram.specs.AttemptExamples.{AttemptExamples};
ghost use Rattle.ns_ram.specs.Examples.{Examples};
ghost use Rattle.ns_ram.specs.Lane.{ChangesItsBytesAlone, IsInRam, bytes_at};
ghost use Rattle.ns_ram.specs.Reader.{AddsItsReads, IsReadFromLane, RunsInTurn};
ghost use Rattle.ns_ram.specs.Writes.{ChangeTheirBytesAlone, IsWriteOfRam, Write};

/// Writes in RAM change their own bytes alone.
pub fn writes_change_their_bytes_alone()
    ensures one { (lane bytes : List ℕ) (addr : ℕ) → length lane ≡ 0x400000
        → IsInRam addr (length bytes) → ChangesItsBytesAlone lane addr bytes }
    ensures all { (lane : List ℕ) (writes : List Write) → length lane ≡ 0x400000
        → AllByRecursion IsWriteOfRam writes → ChangeTheirBytesAlone lane writes }
{}

/// RAM of zeros has zeros everywhere.
pub fn zeros_are_read_everywhere()
    ensures { (addr len : ℕ) → IsInRam addr len → bytes_at (zeros 0x400000) addr len ≡ zeros len }
{}

/// What a reader makes of a lane is what it makes of the reads that it takes there, and of no others that
/// the lane holds.
pub fn readers_depend_on_their_reads<T>()
    ensures { IsReadFromLane T }
{}

/// A reader adds its reads behind those that were listed before.
pub fn readers_add_their_reads<T>()
    ensures { AddsItsReads T }
{}

/// Of two readers in a row the second goes on where the first ended.
pub fn readers_run_in_turn<T, U>()
    ensures { RunsInTurn T U }
{}

/// The definitions at small inputs.
pub fn worked_examples()
    ensures readers { Examples }
    ensures attempts { AttemptExamples }
{}
