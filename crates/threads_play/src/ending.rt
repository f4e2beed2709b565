use kernel_state::EnterRefusal;
use normal_cpus::CpuPass;
use ns_ram::Lane;

/// What a processor's work gives back.
#[derive(Drop)]
pub struct CpuEnd {
    /// Its pass, whose processor is outside.
    pub pass: CpuPass,
    /// The RAM that it sees.
    pub lane: Lane,
    /// Its block: the line `cpu CPU`, its lines, and behind a refused entry the line `full COPIED MORE`.
    pub block: Vec<u8>,
    /// That all its items are done, or which entry was refused, behind which it did nothing more.
    pub outcome: Result<(), EnterRefusal>,
}
