//! The trace so far, which a reader of lines or of records adds to.

ghost use Rattle.std.specs.Prelude.{◌≡◌, ◌<◌, ◌≤◌, ◌++◌, ◌∷◌, [], is_some, length, true, false, IfSome, None, Some};
ghost use Rattle.trace_text.specs.Judging.{Ends, IsPut, Reads, booted, item_cpu};
ghost use Rattle.trace_text.specs.Limits.{cpus_of, end_fault, has_no_item, is_inside, keyed_with, no_front, scene_of, trace_in, with_app, with_item};
ghost use Rattle.trace_text.specs.Statement.{HasFewCpus, IsInPlace, with_statement};

use crate::fault::{BadKind, LineFault};
use crate::item::Item;
use crate::limits::{KEY_BYTES, Size, boot_of};
use crate::scene::Scene;
use crate::statement::Statement;
use crate::trace::{Fill, Trace};
use base::Sequence;
use std::alloc::Global;
use std::marker::Model;
use ta_isa::App;

/// The trace that the lines or records so far give, and its scene. A reader judges each by the limits of traces and then pushes
/// what it says here.
#[derive(Drop)]
pub struct Builder {
    scene: Scene,
    size: Option<Size>,
    apps: Vec<App>,
    key: Option<[u8; KEY_BYTES]>,
    fills: Vec<Fill>,
    items: Vec<Item>,
}

impl Model for Builder {
    ghost use Rattle.trace_text.specs.Judging.{IsTracked, built};
    ghost use Rattle.trace_text.specs.Limits.{Front};

    ghost Value = { Front };

    ghost view = { λ r. built r.size r.apps.items r.key r.fills.items r.items.items };

    ghost invariant = { λ r. IsTracked r.size r.apps.items r.key (built r.size r.apps.items r.key r.fills.items r.items.items) r.scene };
}

impl Builder {
    /// Before the first of them.
    #[tactic(auto, unfolding(crate::specs::Limits::inside_after))]
    pub fn new(alloc: Global) -> Builder
        ensures { result ≡ no_front }
    {
        Builder {
            scene: Scene::new(alloc),
            size: None,
            apps: Vec::new(alloc),
            key: None,
            fills: Vec::new(alloc),
            items: Vec::new(alloc),
        }
    }

    /// The trace of all of them.
    fn into_trace(self) -> Trace
        ensures { result ≡ trace_in self }
    {
        let Builder {
            scene: _,
            size,
            apps,
            key,
            fills,
            items,
        } = self;
        Trace {
            boot: boot_of(size, apps, key),
            fills: Sequence::of(fills),
            items: Sequence::of(items),
        }
    }

    /// What the rules of the next line or record look at.
    pub fn scene(&self) -> &Scene
        ensures { result.now ≡ scene_of self.now }
    {
        &self.scene
    }

    /// How many processors there are, after the boot.
    pub fn cpus(&self) -> Option<u8>
        ensures read { Reads result (is_some self.now.boot) (cpus_of self.now.boot) }
        ensures few { IfSome result (λ n. n ≤ 8) }
    {
        self.scene.cpus()
    }

    /// Whether no item stands yet.
    pub fn has_no_item(&self) -> bool
        ensures { result ≡ has_no_item self.now.items }
    {
        self.items.is_empty()
    }

    /// How many items stand so far.
    pub fn item_count(&self) -> usize
        ensures { result ≡ length self.now.items }
    {
        self.items.len()
    }

    /// Whether a processor is inside.
    pub fn is_inside(&self, cpu: u8) -> bool
        requires { cpu < 8 }
        ensures { result ≡ is_inside self.now.items cpu }
    {
        self.scene.is_inside(cpu)
    }

    /// What the boot says but for its applications.
    pub fn set_size(&mut self, size: Size)
        requires first { is_some self.old.boot ≡ false }
        requires few { size.cpus ≤ 8 }
        ensures { self.new ≡ record self.old { boot = booted (Some size) [] None } }
    {
        self.size = Some(size);
        self.scene.boot(size.cpus);
    }

    /// Adds an application behind the others.
    pub fn push_app(&mut self, app: App) -> Result<(), LineFault>
        requires { is_some self.old.boot ≡ true }
        ensures { IsPut result (record self.old { boot = with_app self.old.boot app }) self.new }
    {
        let count = self.apps.len();
        let uuid = app.uuid;
        self.apps.push(app)?;
        if self.scene.push_app(uuid).is_err() {
            self.apps.truncate(count);
            return Err(LineFault::NoRoom);
        }
        Ok(())
    }

    /// Sets the key of the boot.
    #[tactic(auto, using(crate::proofs::Keys::with_key_booted, crate::proofs::Keys::is_none_booted))]
    pub fn set_key(&mut self, key: [u8; KEY_BYTES])
        requires { is_some self.old.boot ≡ true }
        ensures { self.new ≡ keyed_with self.old key }
    {
        self.key = Some(key);
        self.scene.set_key();
    }

    /// Adds bytes that stand in every lane at the start.
    pub fn push_fill(&mut self, fill: Fill) -> Result<(), LineFault>
        ensures { IsPut result (record self.old { fills = self.old.fills ++ fill ∷ [] }) self.new }
    {
        self.fills.push(fill)?;
        Ok(())
    }

    /// Adds an item behind the others.
    pub fn push_item(&mut self, item: Item) -> Result<(), LineFault>
        requires { item_cpu item < 8 }
        ensures { IsPut result (with_item self.old item) self.new }
    {
        let inside = self.scene.inside_after(&item);
        self.items.push(item)?;
        self.scene.go_on(inside);
        Ok(())
    }

    /// Adds what a line says that keeps its rules.
    pub fn push(&mut self, said: Statement) -> Result<(), LineFault>
        requires place { IsInPlace (scene_of self.old) said }
        requires few { HasFewCpus said }
        ensures { IsPut result (with_statement self.old said) self.new }
    {
        match said {
            Statement::Blank | Statement::Signal(_) => Ok(()),
            Statement::Boot(size) => {
                self.set_size(size);
                Ok(())
            }
            Statement::App(app) => self.push_app(app),
            Statement::Fill(fill) => self.push_fill(fill),
            Statement::Key(key) => {
                self.set_key(key);
                Ok(())
            }
            Statement::Item(item) => self.push_item(item),
        }
    }

    /// The trace, at the end of what it is read from.
    pub fn finish(self) -> Result<Trace, BadKind>
        ensures { Ends result (end_fault self) self }
    {
        if self.scene.is_anyone_inside() {
            return Err(BadKind::Unended);
        }
        Ok(self.into_trace())
    }
}
