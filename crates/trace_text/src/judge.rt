//! Judging a line.

ghost use Rattle.std.specs.Prelude.{◌≡◌, ◌≤◌, ◌++◌, ◌∷◌, [], IfOk, IfSome, length, map, not, true};
ghost use Rattle.trace_text.specs.Forms.{bytes, decimal, hexadecimal, register};
ghost use Rattle.trace_text.specs.Judging.{IsPlaced, Judged};
ghost use Rattle.trace_text.specs.Limits.{goes_out};
ghost use Rattle.trace_text.specs.Plain.{SaysItem};
ghost use Rattle.trace_text.specs.Rules.{app_of, boot_rules, cpu_rules, entry_rules, fill_of, key_rules, mem_rules, rules_at, rules_in, said_by, said_in, show_rules, size_of, ta_rules, words_behind, write_rules};
ghost use Rattle.trace_text.specs.Statement.{HasFewCpus, IsInPlace, closed_if};
ghost use Rattle.trace_text.specs.declared.item.Item.TheVariants as item;
ghost use Rattle.trace_text.specs.declared.statement.Statement.TheVariants as says;

use crate::fault::{BadKind, LineFault};
use crate::item::Item;
use crate::line::{has_words, is_text};
use crate::line_kind::LineKind;
use crate::plain::{plain_call, plain_write};
use crate::said::{Call, app_of, call_of, cpu_of, fill_of, key_of, show_of, size_of, write_of};
use crate::scene::Scene;
use crate::statement::Statement;
use std::alloc::Global;
use text_lines::{Words, is_skipped};
use uuid::Uuid;

/// A line `mem`, by its words.
fn judge_mem(alloc: Global, addr: &[u8], hex: &[u8]) -> Result<Statement, LineFault>
    ensures { Judged (λ s. s) result (mem_rules addr.now hex.now) (says.Fill (fill_of addr.now hex.now)) }
{
    Ok(Statement::Fill(fill_of(alloc, addr, hex)?))
}

impl Scene {
    /// A line `boot`, by its words.
    fn judge_boot(&self, cpus: &[u8], threads: &[u8], frames: &[u8]) -> Result<Statement, LineFault>
        ensures { Judged (λ s. s) result ((BadKind.Place, not self.now.is_booted) ∷ boot_rules cpus.now threads.now frames.now)
            (says.Boot (size_of cpus.now threads.now frames.now)) }
    {
        if self.is_booted() {
            return Err(LineFault::Broken(BadKind::Place));
        }
        Ok(Statement::Boot(size_of(cpus, threads, frames)?))
    }

    /// A line `ta`, by its words.
    fn judge_ta(
        &self,
        alloc: Global,
        natives: &[Uuid],
        id: &[u8],
        image: &[u8],
    ) -> Result<Statement, LineFault>
        ensures { Judged (λ s. s) result (ta_rules natives.now self.now.apps id.now image.now)
            (says.App (app_of id.now image.now)) }
    {
        Ok(Statement::App(app_of(alloc, natives, self.apps(), id, image)?))
    }

    /// A line `key`, by its word.
    fn judge_key(&self, alloc: Global, hex: &[u8]) -> Result<Statement, LineFault>
        ensures { Judged (λ s. s) result ((BadKind.Place, not self.now.keyed) ∷ key_rules hex.now) (says.Key (bytes hex.now)) }
    {
        if self.has_key() {
            return Err(LineFault::Broken(BadKind::Place));
        }
        Ok(Statement::Key(key_of(alloc, hex)?))
    }

    /// What a line `smc` or `enter` says, by its words.
    fn judge_call(&self, cpu: &[u8], steps: &[u8], regs: Words) -> Result<Call, LineFault>
        requires { length regs ≡ 8 }
        ensures { Judged (λ c. c) result (entry_rules self.now cpu.now steps.now regs.entry)
            (record { cpu = decimal cpu.now; steps = decimal steps.now; regs = map register regs.entry }) }
    {
        let Some(cpus) = self.cpus() else {
            return Err(LineFault::Broken(BadKind::Place));
        };
        let call = call_of(cpus, cpu, steps, regs)?;
        if self.is_inside(call.cpu) {
            return Err(LineFault::Broken(BadKind::Inside));
        }
        Ok(call)
    }

    /// A line `smc`, by its words.
    fn judge_smc(&self, cpu: &[u8], steps: &[u8], regs: Words) -> Result<Statement, LineFault>
        requires { length regs ≡ 8 }
        ensures { Judged (λ s. s) result (entry_rules self.now cpu.now steps.now regs.entry)
            (says.Item (item.Smc (decimal cpu.now) (decimal steps.now) (map register regs.entry))) }
    {
        let Call { cpu, steps, regs } = self.judge_call(cpu, steps, regs)?;
        Ok(Statement::Item(Item::Smc { cpu, steps, regs }))
    }

    /// A line `enter`, by its words.
    fn judge_enter(&self, cpu: &[u8], steps: &[u8], regs: Words) -> Result<Statement, LineFault>
        requires { length regs ≡ 8 }
        ensures { Judged (λ s. s) result (entry_rules self.now cpu.now steps.now regs.entry)
            (says.Item (item.Enter (decimal cpu.now) (decimal steps.now) (map register regs.entry))) }
    {
        let Call { cpu, steps, regs } = self.judge_call(cpu, steps, regs)?;
        Ok(Statement::Item(Item::Enter { cpu, steps, regs }))
    }

    /// A line `leave`, by its word.
    fn judge_leave(&self, cpu: &[u8]) -> Result<Statement, LineFault>
        ensures { Judged (λ s. s) result ((BadKind.Place, self.now.is_booted) ∷ cpu_rules self.now.cpus cpu.now
            ++ goes_out self.now.inside (decimal cpu.now)) (says.Item (item.Leave (decimal cpu.now))) }
    {
        let Some(cpus) = self.cpus() else {
            return Err(LineFault::Broken(BadKind::Place));
        };
        let cpu = cpu_of(cpus, cpu)?;
        if !self.is_inside(cpu) {
            return Err(LineFault::Broken(BadKind::Inside));
        }
        Ok(Statement::Item(Item::Leave { cpu }))
    }

    /// A line `write`, by its words.
    fn judge_write(
        &self,
        alloc: Global,
        cpu: &[u8],
        addr: &[u8],
        hex: &[u8],
    ) -> Result<Statement, LineFault>
        ensures { Judged (λ s. s) result ((BadKind.Place, self.now.is_booted) ∷ write_rules self.now.cpus cpu.now addr.now hex.now)
            (says.Item (item.Write (decimal cpu.now) (hexadecimal addr.now) (bytes hex.now))) }
    {
        let Some(cpus) = self.cpus() else {
            return Err(LineFault::Broken(BadKind::Place));
        };
        Ok(Statement::Item(write_of(alloc, cpus, cpu, addr, hex)?))
    }

    /// A line `show`, by its words.
    fn judge_show(&self, cpu: &[u8], addr: &[u8], len: &[u8]) -> Result<Statement, LineFault>
        ensures { Judged (λ s. s) result ((BadKind.Place, self.now.is_booted) ∷ show_rules self.now.cpus cpu.now addr.now len.now)
            (says.Item (item.Show (decimal cpu.now) (hexadecimal addr.now) (decimal len.now))) }
    {
        let Some(cpus) = self.cpus() else {
            return Err(LineFault::Broken(BadKind::Place));
        };
        Ok(Statement::Item(show_of(cpus, cpu, addr, len)?))
    }

    /// That what a boot is given may stand here, given whether a signal closes that.
    fn is_in_header(&self, is_closed: bool) -> Result<(), LineFault>
        ensures { IsPlaced result self.now.is_booted (closed_if is_closed self.now).is_open }
    {
        if !self.is_booted() {
            return Err(LineFault::Broken(BadKind::Place));
        }
        if !self.is_open(is_closed) {
            return Err(LineFault::Broken(BadKind::Place));
        }
        Ok(())
    }

    /// A line of this kind, by the words behind its first one, given whether a signal closes what a boot is given.
    fn judge_words(
        &self,
        alloc: Global,
        natives: &[Uuid],
        is_closed: bool,
        kind: LineKind,
        mut words: Words,
    ) -> Result<Statement, LineFault>
        requires { length words ≡ words_behind kind }
        ensures { Judged (λ s. s) result (rules_in kind natives.now (closed_if is_closed self.now) words.entry)
            (said_by kind words.entry) }
    {
        match kind {
            LineKind::Boot => self.judge_boot(words.word(), words.word(), words.word()),
            LineKind::Ta => {
                self.is_in_header(is_closed)?;
                self.judge_ta(alloc, natives, words.word(), words.word())
            }
            LineKind::Mem => {
                self.is_in_header(is_closed)?;
                judge_mem(alloc, words.word(), words.word())
            }
            LineKind::Key => {
                self.is_in_header(is_closed)?;
                self.judge_key(alloc, words.word())
            }
            LineKind::Smc => self.judge_smc(words.word(), words.word(), words),
            LineKind::Enter => self.judge_enter(words.word(), words.word(), words),
            LineKind::Leave => self.judge_leave(words.word()),
            LineKind::Write => self.judge_write(alloc, words.word(), words.word(), words.word()),
            LineKind::Show => self.judge_show(words.word(), words.word(), words.word()),
        }
    }

    /// The item of a line `smc` that is read in one pass.
    #[inline(always)]
    fn plain_smc(&self, cpus: u8, line: &[u8]) -> Option<Item>
        requires few { cpus ≤ 8 }
        requires booted { self.now.is_booted ≡ true }
        requires count { cpus ≡ self.now.cpus }
        ensures { IfSome result (SaysItem self.now line.now) }
    {
        let Call { cpu, steps, regs } = plain_call(cpus, line)?;
        if self.is_inside(cpu) {
            return None;
        }
        Some(Item::Smc { cpu, steps, regs })
    }

    /// The item of a line `smc` or `write` that is read in one pass. Without one, the line is read word by word, which names its
    /// fault.
    #[inline(always)]
    fn plain_item(&self, alloc: Global, line: &[u8]) -> Option<Item>
        ensures { IfSome result (SaysItem self.now line.now) }
    {
        let cpus = self.cpus()?;
        if let Some(item) = self.plain_smc(cpus, line) {
            return Some(item);
        }
        plain_write(alloc, cpus, line)
    }

    /// Judges a line word by word.
    pub(crate) fn judge_by_words(
        &self,
        alloc: Global,
        natives: &[Uuid],
        is_closed: bool,
        line: &[u8],
    ) -> Result<Statement, LineFault>
        ensures { Judged (λ s. s) result (rules_at natives.now (closed_if is_closed self.now) true line.now) (said_in line.now) }
    {
        if !is_text(line) {
            return Err(LineFault::Broken(BadKind::Byte));
        }
        if is_skipped(line) {
            return Ok(Statement::Blank);
        }
        let mut words = Words::of(line);
        let Some(kind) = LineKind::named(words.word()) else {
            return Err(LineFault::Broken(BadKind::Item));
        };
        if !has_words(line, kind.words_behind()) {
            return Err(LineFault::Broken(BadKind::Count));
        }
        self.judge_words(alloc, natives, is_closed, kind, words)
    }

    /// Judges a line, which is given without its line feed, behind the lines that the scene stands for: what it says, or the first
    /// rule that it breaks, in the order of [`BadKind`]. `natives` are the UUIDs of the applications that are built in, which no
    /// `ta` line may repeat. Where a signal stands among the lines, which no trace has, what a boot is given is closed.
    pub fn judge(
        &self,
        alloc: Global,
        natives: &[Uuid],
        is_closed: bool,
        line: &[u8],
    ) -> Result<Statement, LineFault>
        ensures judged { Judged (λ s. s) result (rules_at natives.now (closed_if is_closed self.now) true line.now) (said_in line.now) }
        ensures in_place { IfOk result (IsInPlace (closed_if is_closed self.now)) }
        ensures few { IfOk result HasFewCpus }
    {
        // For the proof: the boot has at most eight processors.
        let _ = &self.cpus;
        if let Some(item) = self.plain_item(alloc, line) {
            return Ok(Statement::Item(item));
        }
        self.judge_by_words(alloc, natives, is_closed, line)
    }
}
