ghost use Rattle.std.specs.Prelude.{◌≡◌, ◌≤◌};
ghost use Rattle.core_lock.specs.Passes.{basis_of, count_of};
ghost use Rattle.kernel_state.specs.Meaning.{core_basis};
ghost use Rattle.kernel_state.specs.Terms.{kept_terms};

use core_lock::{CoreLock, Pass};
use kernel_state::Core;

/// A processor's right to come in and to go out. Its number is that of its processor, which is inside exactly where the last
/// event that the pass made is an entry.
pub type CpuPass = Pass<Core>;

/// A core that its processors share, which keeps its events. There are as many passes as processors.
#[derive(Drop)]
pub struct SharedCore {
    pub(crate) lock: CoreLock<Core>,
    pub ghost counted: { count_of lock ≡ (basis_of core_basis lock).boot.cpus },
    pub ghost kept: { (basis_of core_basis lock).terms ≡ kept_terms },
    pub ghost few: { count_of lock ≤ 8 },
}
