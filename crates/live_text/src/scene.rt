ghost use Rattle.std.specs.Prelude.{◌≡◌, OnErr, OnOk, is_some};
ghost use Rattle.live_text.specs.Rules.{LiveFront, no_lines, without_history};
ghost use Rattle.live_text.specs.Scene.{IsSceneOf};
ghost use Rattle.live_text.specs.Statement.{with_statement};
ghost use Rattle.trace_text.specs.Statement.{HasFewCpus};

use base::NoMemory;
use std::alloc::Global;
use std::marker::Model;
use trace_text::Statement;

/// What the rules of the next line look at of the lines so far.
#[derive(Drop)]
pub struct Scene {
    /// Of the trace with signals.
    lines: trace_text::Scene,
    /// History is off.
    forgets: bool,
}

impl Model for Scene {
    ghost use Rattle.live_text.specs.Scene.{LiveScene};

    ghost Value = { LiveScene };

    ghost view = { λ s. record { lines = s.lines; forgets = s.forgets } };
}

impl Scene {
    /// Before the first line. Takes no memory.
    #[tactic(auto, unfolding(trace_text::specs::Limits::inside_after))]
    pub fn new(alloc: Global) -> Scene
        ensures { IsSceneOf result no_lines }
    {
        Scene {
            lines: trace_text::Scene::new(alloc),
            forgets: false,
        }
    }

    /// Of the trace with signals.
    pub(crate) fn lines(&self) -> &trace_text::Scene
        ensures { result.now ≡ self.now.lines }
    {
        &self.lines
    }

    /// Whether a boot is among the lines.
    pub fn is_booted(&self) -> bool
        ensures scene { result ≡ self.now.lines.is_booted }
        ensures lines { (front : LiveFront) → IsSceneOf self.now front → result ≡ is_some front.told.trace.boot }
    {
        self.lines.is_booted()
    }

    /// Whether history is off.
    pub fn is_history_off(&self) -> bool
        ensures { result ≡ self.now.forgets }
    {
        self.forgets
    }

    /// The scene behind a line that says this. Want of memory leaves it as it was.
    pub fn take(&mut self, said: &Statement) -> Result<(), NoMemory>
        requires { HasFewCpus said.now }
        ensures taken { (front : LiveFront) → IsSceneOf self.old front →
            OnOk result (IsSceneOf self.new (with_statement front said.now)) }
        ensures no_memory { OnErr result (self.new ≡ self.old) }
    {
        self.lines.take(said)
    }

    /// The scene behind `history off`.
    pub fn forget(&mut self)
        ensures { (front : LiveFront) → IsSceneOf self.old front → IsSceneOf self.new (without_history front) }
    {
        self.forgets = true;
    }
}
