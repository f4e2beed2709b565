//! Laying reads into RAM.
ghost use Rattle.journal_replay.specs.Laying.{AreOfOneRam};
ghost use Rattle.kernel_model.specs.Turns.{IsReadOfRam};
ghost use Rattle.kernel_state.specs.Reads.{Agree};
ghost use Rattle.ns_ram.specs.Reads.{HoldsRead, HoldsReads};
ghost use Rattle.ns_ram.specs.declared.read.Read.{Read as AnyRead};

use ns_ram::{Lane, Read, in_ram};

/// Gives the lane the bytes of a read, where they lie in RAM.
fn put(lane: &mut Lane, read: &Read)
    ensures held { IsReadOfRam read.now → HoldsRead lane.new read.now }
    ensures kept { IsReadOfRam read.now → (other : AnyRead) → IsReadOfRam other → Agree other read.now
        → HoldsRead lane.old other → HoldsRead lane.new other }
{
    let bytes = read.bytes.as_slice();
    let len = bytes.len() as u64;
    if !in_ram(read.addr, len) {
        return;
    }
    // for the proof: the lane has all of RAM's bytes
    let _was = lane.at(read.addr, len);
    lane.write(read.addr, bytes);
}

/// Lays reads into a lane, each over those before it; bytes outside of RAM are left out. Where each read is of some bytes of RAM,
/// and no two of them have different bytes at one address, the lane then has the bytes of all of them.
pub fn lay(lane: &mut Lane, reads: &[Read])
    ensures { AreOfOneRam reads.now → HoldsReads lane.new reads.now }
{
    for read in reads {
        put(lane, read);
    }
}
