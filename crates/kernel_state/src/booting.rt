ghost use Rattle.std.specs.Prelude.{◌≡◌, ◌<◌, ◌≤◌, ◌^◌, ◌↔◌, ℕ, List, [], map, false, replicate, Some, IfNone, IfOk, IsErrOf};
ghost use Rattle.kernel_model.specs.Application.{AreNatives, booted};
ghost use Rattle.kernel_model.specs.Kernel.{first_kernel, first_tables};
ghost use Rattle.kernel_state.specs.Booting.{IsWithinLimits, first_repeated};
ghost use Rattle.kernel_state.specs.Setup.{app_of, boot_of, booted_of_setup, natives_of};
ghost use Rattle.kernel_state.specs.StandsFor.{StandsFor};
ghost use Rattle.kernel_state.specs.Tables.{tables_of};
ghost use Rattle.kernel_state.specs.Terms.{kept_terms};
ghost use Rattle.kernel_state.specs.Meaning.{booted_of, events_of, terms_of};
ghost use Rattle.kernel_state.specs.declared.boot_fault.BootFault.TheVariants.{Repeated};
ghost use Rattle.kernel_state.specs.declared.processor.Processor.TheVariants.{Outside};
ghost use Rattle.native_tas.specs.Table.{entries};
ghost use Rattle.ta_isa.specs.Boots.{IsBoot};
ghost use Rattle.thread_slots.specs.declared.slot.Slot.TheVariants.{Free};

use crate::blanks::Blanks;
use crate::boot_fault::BootFault;
use crate::cancellation::Cancellation;
use crate::kernel_core::Core;
use crate::parts::Parts;
use crate::processor::Processor;
use crate::repeats::first_repeated;
use crate::setup::Setup;
use crate::shared_app::SharedApp;
use crate::tables::Tables;
use crate::terms::Terms;
use base::{NoMemory, Sequence};
use event_log::Log;
use frame_pool::{Pages, Pool};
use native_tas::Natives;
use rpc_cont::Cont;
use session_table::{Sessions, Waiters};
use shm_registry::Registry;
use std::alloc::Global;
use std::sync::Arc;
use ta_instances::Instances;
use ta_isa::{App, Boot};
use thread_slots::Slots;
use uuid::Uuid;

/// The UUID of the first application that an earlier one or a built-in one has. Where there is none, a core can be
/// booted.
fn repeated(boot: &Boot, natives: &Natives) -> Option<Uuid>
    requires { IsWithinLimits boot.now }
    ensures first { result ≡ first_repeated (map (λ native. native.0) (entries natives.now)) (map (λ app. app.uuid) boot.now.apps) }
    ensures boot { IfNone result (IsBoot boot.now) }
    ensures natives { IfNone result (AreNatives boot.now (entries natives.now)) }
{
    first_repeated(natives.uuids().as_slice(), boot.apps.as_slice())
}

/// The applications, each with its image where calls can share it.
fn shared_apps(alloc: Global, apps: Sequence<App>) -> Result<Sequence<SharedApp>, NoMemory>
    ensures { IfOk result (λ shared. map app_of shared ≡ apps) }
{
    let mut shared = Vec::with_capacity(alloc, apps.len())?;
    for app in apps.into_vec() {
        let App { uuid, image } = app;
        let image = Arc::new(alloc, image)?;
        shared.push(SharedApp { uuid, image })?;
    }
    Ok(Sequence::of(shared))
}

/// So many free slots.
fn free_slots(alloc: Global, threads: u8) -> Result<Slots<Box<Cont<Pages>>>, NoMemory>
    requires some { 0 < threads }
    requires few { threads ≤ 16 }
    ensures { IfOk result (λ slots. slots ≡ replicate threads Free) }
{
    Slots::new(alloc, threads)
}

/// What stands beside so many free slots.
fn free_cancellations(alloc: Global, threads: u8) -> Result<Vec<Cancellation>, NoMemory>
    ensures { IfOk result (λ cancellations. cancellations.items ≡ replicate threads (record { session = 0; cancel_id = 0; marked = false })) }
{
    let none = Cancellation {
        session: 0,
        cancel_id: 0,
        marked: false,
    };
    Ok(vec![in alloc; none; usize::from(threads)]?)
}

/// So many processors that are outside.
fn outside_processors(alloc: Global, cpus: u8) -> Result<Vec<Processor>, NoMemory>
    ensures { IfOk result (λ processors. processors.items ≡ replicate cpus Outside) }
{
    Ok(vec![in alloc; Processor::Outside; usize::from(cpus)]?)
}

/// Tables where nothing is kept, and so many free frames.
fn first_tables(alloc: Global, frames: u16) -> Result<Tables, NoMemory>
    requires some { 0 < frames }
    requires few { frames ≤ 1024 }
    ensures first { IfOk result (λ tables. tables_of tables ≡ first_tables) }
    ensures free { IfOk result (λ tables. tables.pool ≡ record { frames = frames; free = frames }) }
{
    let pool = Pool::new(alloc, frames)?;
    let registry = Registry::new(alloc)?;
    let sessions = Sessions::new(alloc)?;
    let instances = Instances::new(alloc)?;
    Ok(Tables {
        sessions,
        waiters: Waiters::new(),
        instances,
        instances_made: 0,
        registry,
        pool,
    })
}

/// What a core of this boot keeps of it.
fn setup_of(alloc: Global, boot: Boot, natives: &Natives, terms: Terms) -> Result<Setup, NoMemory>
    ensures boot { IfOk result (λ setup. boot_of setup ≡ boot) }
    ensures natives { IfOk result (λ setup. natives_of setup ≡ entries natives.now) }
    ensures terms { IfOk result (λ setup. setup.terms ≡ terms) }
{
    let Boot {
        cpus,
        threads,
        frames,
        apps,
        key,
    } = boot;
    Ok(Setup {
        cpus,
        threads,
        frames,
        apps: shared_apps(alloc, apps)?,
        key,
        natives: Sequence::of(natives.apps(alloc)?),
        terms,
    })
}

/// A log where nothing has happened, which keeps the events to come or counts them.
fn first_log(alloc: Global, keeps: bool) -> Result<Log, NoMemory>
    ensures events { IfOk result (λ log. log.events ≡ []) }
    ensures keeps { IfOk result (λ log. log.keeps ≡ keeps) }
{
    if keeps {
        Ok(Log::keeping(alloc))
    } else {
        Log::counting(alloc)
    }
}

/// The parts of a core where nothing has happened.
fn first_parts(
    alloc: Global,
    boot: Boot,
    natives: &Natives,
    terms: Terms,
) -> Result<Parts, NoMemory>
    requires { IsWithinLimits boot }
    ensures boot { IfOk result (λ parts. boot_of parts.setup ≡ boot) }
    ensures natives { IfOk result (λ parts. natives_of parts.setup ≡ entries natives.now) }
    ensures terms { IfOk result (λ parts. parts.setup.terms ≡ terms) }
    ensures events { IfOk result (λ parts. parts.journal.events ≡ []) }
    ensures keeps { IfOk result (λ parts. parts.journal.keeps ≡ parts.setup.terms.keeps) }
    ensures stands { IfOk result (λ parts. StandsFor parts (first_kernel (booted_of_setup parts.setup))) }
{
    let setup = setup_of(alloc, boot, natives, terms)?;
    parts_with(alloc, setup)
}

/// The same, with what the core keeps of its boot.
fn parts_with(alloc: Global, setup: Setup) -> Result<Parts, NoMemory>
    requires { IsWithinLimits (boot_of setup) }
    ensures setup { IfOk result (λ parts. parts.setup ≡ setup) }
    ensures events { IfOk result (λ parts. parts.journal.events ≡ []) }
    ensures keeps { IfOk result (λ parts. parts.journal.keeps ≡ setup.terms.keeps) }
    ensures stands { IfOk result (λ parts. StandsFor parts (first_kernel (booted_of_setup parts.setup))) }
{
    let cancellations = free_cancellations(alloc, setup.threads)?;
    let processors = outside_processors(alloc, setup.cpus)?;
    let blanks = Blanks::new(alloc, setup.threads)?;
    let slots = free_slots(alloc, setup.threads)?;
    let tables = first_tables(alloc, setup.frames)?;
    let journal = first_log(alloc, setup.terms.keeps)?;
    Ok(Parts {
        setup,
        slots,
        cancellations,
        processors,
        tables,
        blanks,
        journal,
    })
}

impl Core {
    /// A core where nothing has happened, of a boot within the limits and of applications that are built in. It keeps its events, and
    /// its entries may read 2^28 bytes. Repeated exactly where a UUID stands twice, and else Memory where there is too little.
    pub fn boot(alloc: Global, boot: Boot, natives: &Natives) -> Result<Core, BootFault>
        requires { IsWithinLimits boot }
        ensures booted { IfOk result (λ core. booted_of core ≡ booted boot (entries natives.now)) }
        ensures terms { IfOk result (λ core. terms_of core ≡ kept_terms) }
        ensures events { IfOk result (λ core. events_of core ≡ []) }
        ensures repeated { (uuid : List ℕ) → (IsErrOf result (Repeated uuid)
            ↔ (first_repeated (map (λ native. native.0) (entries natives.now)) (map (λ app. app.uuid) boot.apps) ≡ Some uuid)) }
    {
        Core::boot_on(alloc, boot, natives, Terms::KEPT)
    }

    #[tactic(auto, using(crate::proofs::Opened::opened))]
    /// The same on other terms: its events are kept, or counted, and its entries may read another number of bytes.
    pub fn boot_on(
        alloc: Global,
        boot: Boot,
        natives: &Natives,
        terms: Terms,
    ) -> Result<Core, BootFault>
        requires limits { IsWithinLimits boot }
        requires bounded { terms.most ≤ 2 ^ 63 }
        ensures booted { IfOk result (λ core. booted_of core ≡ booted boot (entries natives.now)) }
        ensures terms { IfOk result (λ core. terms_of core ≡ terms) }
        ensures events { IfOk result (λ core. events_of core ≡ []) }
        ensures repeated { (uuid : List ℕ) → (IsErrOf result (Repeated uuid)
            ↔ (first_repeated (map (λ native. native.0) (entries natives.now)) (map (λ app. app.uuid) boot.apps) ≡ Some uuid)) }
    {
        if let Some(uuid) = repeated(&boot, natives) {
            return Err(BootFault::Repeated(uuid));
        }
        let Ok(parts) = first_parts(alloc, boot, natives, terms) else {
            return Err(BootFault::Memory);
        };
        Ok(Core { parts })
    }
}
