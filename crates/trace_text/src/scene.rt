ghost use Rattle.std.specs.Prelude.{◌≡◌, ◌<◌, ◌≤◌, ◌++◌, ◌∷◌, [], IfSome, OnErr, OnOk, false, slice_index_or, slice_set, true};
ghost use Rattle.std.specs.List.{list_any};
ghost use Rattle.trace_text.specs.Judging.{Reads};
ghost use Rattle.trace_text.specs.Limits.{first_scene, moved};
ghost use Rattle.trace_text.specs.Statement.{HasFewCpus, closed_if, scene_after};

use crate::item::Item;
use crate::limits::MAX_CPUS;
use crate::statement::Statement;
use base::NoMemory;
use std::alloc::Global;
use std::marker::Model;
use uuid::Uuid;

/// Which processors are inside after this one has come in or gone out.
#[tactic(auto, using(std::proofs::lemmas::List::set_past))]
fn with_place(mut inside: [bool; MAX_CPUS], cpu: u8, is_inside: bool) -> [bool; MAX_CPUS]
    ensures { result ≡ slice_set inside cpu is_inside }
{
    let place = usize::from(cpu);
    if place < MAX_CPUS {
        inside[place] = is_inside;
    }
    inside
}

/// What the rules of the next line look at of the lines so far.
#[derive(Drop)]
pub struct Scene {
    /// How many processors there are, where a boot stands.
    pub(crate) cpus: Option<u8>,
    /// The UUIDs of the applications in images.
    apps: Vec<Uuid>,
    has_key: bool,
    /// Whether what else a boot is given may follow: no item stands yet, and no signal.
    is_open: bool,
    /// Which processors are inside.
    inside: [bool; MAX_CPUS],
}

impl Model for Scene {
    ghost use Rattle.std.specs.Prelude.{◌≤◌, IfSome, is_some, unwrap_or};
    ghost use Rattle.trace_text.specs.Limits.{SceneState};

    ghost Value = { SceneState };

    ghost view = { λ s. record { is_booted = is_some s.cpus; cpus = unwrap_or s.cpus 0; apps = s.apps.items; keyed = s.has_key; is_open = s.is_open; inside = s.inside } };

    ghost invariant = { λ s. IfSome s.cpus (λ n. n ≤ 8) };
}

impl Scene {
    /// Before the first line. Takes no memory.
    pub fn new(alloc: Global) -> Scene
        ensures { result ≡ first_scene }
    {
        Scene {
            cpus: None,
            apps: Vec::new(alloc),
            has_key: false,
            is_open: true,
            inside: [false; MAX_CPUS],
        }
    }

    /// Whether a boot stands.
    pub fn is_booted(&self) -> bool
        ensures { result ≡ self.now.is_booted }
    {
        self.cpus.is_some()
    }

    /// How many processors there are, after the boot.
    pub fn cpus(&self) -> Option<u8>
        ensures read { Reads result self.now.is_booted self.now.cpus }
        ensures few { IfSome result (λ n. n ≤ 8) }
    {
        self.cpus
    }

    /// The UUIDs of the applications in images.
    pub fn apps(&self) -> &[Uuid]
        ensures { result.now ≡ self.now.apps }
    {
        self.apps.as_slice()
    }

    /// Whether a key stands.
    pub fn has_key(&self) -> bool
        ensures { result ≡ self.now.keyed }
    {
        self.has_key
    }

    /// Whether what else a boot is given may follow, given whether a signal stands that closes this.
    pub(crate) fn is_open(&self, is_closed: bool) -> bool
        ensures { result ≡ (closed_if is_closed self.now).is_open }
    {
        !is_closed && self.is_open
    }

    /// Whether a processor is inside.
    pub fn is_inside(&self, cpu: u8) -> bool
        requires { cpu < 8 }
        ensures { result ≡ slice_index_or self.now.inside cpu false }
    {
        self.inside[usize::from(cpu)]
    }

    pub(crate) fn is_anyone_inside(&self) -> bool
        ensures { result ≡ list_any (λ inside. inside) self.now.inside }
    {
        self.inside.iter().any(|inside| *inside)
    }

    /// Which processors are inside after an item.
    pub(crate) fn inside_after(&self, item: &Item) -> [bool; MAX_CPUS]
        ensures { result ≡ moved self.now.inside item.now }
    {
        match item {
            Item::Enter { cpu, .. } => with_place(self.inside, *cpu, true),
            Item::Leave { cpu } => with_place(self.inside, *cpu, false),
            Item::Smc { .. } | Item::Write { .. } | Item::Show { .. } => self.inside,
        }
    }

    /// A boot with so many processors.
    pub(crate) fn boot(&mut self, cpus: u8)
        requires { cpus ≤ 8 }
        ensures { self.new ≡ record self.old { is_booted = true; cpus = cpus; apps = [] } }
    {
        self.cpus = Some(cpus);
        self.apps.clear();
    }

    /// An application in an image, by its UUID.
    pub(crate) fn push_app(&mut self, uuid: Uuid) -> Result<(), NoMemory>
        ensures done { OnOk result (self.new ≡ record self.old { apps = self.old.apps ++ uuid ∷ [] }) }
        ensures no_memory { OnErr result (self.new ≡ self.old) }
    {
        self.apps.push(uuid)?;
        Ok(())
    }

    /// A key.
    pub(crate) fn set_key(&mut self)
        ensures { self.new ≡ record self.old { keyed = true } }
    {
        self.has_key = true;
    }

    /// An item, behind which these processors are inside.
    pub(crate) fn go_on(&mut self, inside: [bool; MAX_CPUS])
        ensures { self.new ≡ record self.old { is_open = false; inside = inside } }
    {
        self.is_open = false;
        self.inside = inside;
    }

    /// The scene behind a line that says this. Want of memory leaves it as it was.
    pub fn take(&mut self, said: &Statement) -> Result<(), NoMemory>
        requires { HasFewCpus said.now }
        ensures taken { OnOk result (self.new ≡ scene_after self.old said.now) }
        ensures no_memory { OnErr result (self.new ≡ self.old) }
    {
        match said {
            Statement::Blank | Statement::Fill(_) => {}
            Statement::Boot(size) => self.boot(size.cpus),
            Statement::App(app) => {
                if self.is_booted() {
                    self.push_app(app.uuid)?;
                }
            }
            Statement::Key(_) => self.set_key(),
            Statement::Item(item) => {
                let inside = self.inside_after(item);
                self.go_on(inside);
            }
            Statement::Signal(_) => self.is_open = false,
        }
        Ok(())
    }
}
