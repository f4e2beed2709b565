//! Taking records one after the other.

ghost use Rattle.std.specs.Prelude.{◌≡◌, ◌<◌, ◌≤◌, ◌++◌, ◌∷◌, [], length, is_none, is_some, take, IfOk, Some, None, true, MatchResult};
ghost use Rattle.trace_text.specs.Judging.{IsTaken, Judged};
ghost use Rattle.trace_text.specs.Limits.{first_broken, key_place, keyed_with, scene_of, with_app, with_item};
ghost use Rattle.trace_bin.specs.Record.{fixed_len, number};
ghost use Rattle.trace_bin.specs.Rules.{added, after_record, app_in, behind_record, boot_in, boot_rules, cpu_in, entry_rules, fill_in, leave_rules, mem_rules, record_rules, registers_in, rules_of, show_rules, steps_in, ta_rules, write_rules};
ghost use Rattle.trace_bin.specs.Taking.{IsTakenTo};
ghost use Rattle.trace_text.specs.declared.item.Item.TheVariants as item;

use crate::body::{body_len, have_forms, key_in, long_at, registers, short_at, uuid_in, word_at};
use crate::record_kind::RecordKind;
use base::Sequence;
use std::alloc::Global;
use ta_isa::App;
use trace_text::limits::{
    MAX_APPS, MAX_SHOWN, MAX_STEPS, Size, image_of, is_known, is_there, is_within, lies_in_ram,
};
use trace_text::{BadKind, Builder, Fill, Item, LineFault, Reg};
use uuid::Uuid;

/// What an entry says.
struct Call {
    cpu: u8,
    steps: u32,
    regs: [Reg; 8],
}

/// A record `boot`.
pub fn take_boot(builder: &mut Builder, body: &[u8]) -> Result<(), LineFault>
    requires { 4 ≤ length body.now }
    ensures { IsTaken result (boot_rules builder.old body.now) (record builder.old { boot = Some (boot_in body.now) }) builder.new }
{
    if builder.cpus().is_some() {
        return Err(LineFault::Broken(BadKind::Place));
    }
    let size = Size {
        cpus: body[0],
        threads: body[1],
        frames: short_at(body, 2),
    };
    if !is_within(1, 8, u32::from(size.cpus)) {
        return Err(LineFault::Broken(BadKind::Range));
    }
    if !is_within(1, 16, u32::from(size.threads)) {
        return Err(LineFault::Broken(BadKind::Range));
    }
    if !is_within(1, 1024, u32::from(size.frames)) {
        return Err(LineFault::Broken(BadKind::Range));
    }
    builder.set_size(size);
    Ok(())
}

/// A record `ta`, with the bytes of its image.
pub fn take_ta(
    alloc: Global,
    natives: &[Uuid],
    builder: &mut Builder,
    body: &[u8],
    image: &[u8],
) -> Result<(), LineFault>
    requires { 16 ≤ length body.now }
    ensures { IsTaken result (ta_rules natives.now builder.old body.now image.now)
        (record builder.old { boot = with_app builder.old.boot (app_in body.now image.now) }) builder.new }
{
    if builder.cpus().is_none() {
        return Err(LineFault::Broken(BadKind::Place));
    }
    if !builder.has_no_item() {
        return Err(LineFault::Broken(BadKind::Place));
    }
    if image.is_empty() {
        return Err(LineFault::Broken(BadKind::Range));
    }
    if builder.scene().apps().len() >= MAX_APPS {
        return Err(LineFault::Broken(BadKind::Range));
    }
    let uuid = uuid_in(body);
    if is_known(natives, builder.scene().apps(), uuid) {
        return Err(LineFault::Broken(BadKind::Repeat));
    }
    let image = image_of(alloc, image)?;
    builder.push_app(App { uuid, image })
}

/// A record `mem`, with its bytes.
fn take_mem(
    alloc: Global,
    builder: &mut Builder,
    body: &[u8],
    bytes: &[u8],
) -> Result<(), LineFault>
    requires { 8 ≤ length body.now }
    ensures { IsTaken result (mem_rules builder.old body.now bytes.now)
        (record builder.old { fills = builder.old.fills ++ fill_in body.now bytes.now ∷ [] }) builder.new }
{
    if builder.cpus().is_none() {
        return Err(LineFault::Broken(BadKind::Place));
    }
    if !builder.has_no_item() {
        return Err(LineFault::Broken(BadKind::Place));
    }
    if bytes.is_empty() {
        return Err(LineFault::Broken(BadKind::Range));
    }
    let addr = long_at(body, 0);
    if !lies_in_ram(addr, bytes.len() as u64) {
        return Err(LineFault::Broken(BadKind::Range));
    }
    let bytes = bytes.to_vec(alloc)?;
    builder.push_fill(Fill {
        addr,
        bytes: Sequence::of(bytes),
    })
}

/// A record `key`.
pub fn take_key(builder: &mut Builder, body: &[u8]) -> Result<(), LineFault>
    requires { 32 ≤ length body.now }
    ensures { IsTaken result (key_place (scene_of builder.old))
        (keyed_with builder.old (take 32 body.now)) builder.new }
{
    if builder.cpus().is_none() {
        return Err(LineFault::Broken(BadKind::Place));
    }
    if !builder.has_no_item() || builder.scene().has_key() {
        return Err(LineFault::Broken(BadKind::Place));
    }
    builder.set_key(key_in(body));
    Ok(())
}

/// What the body of an entry says.
#[tactic(auto, unfolding(crate::specs::Rules::registers_in))]
fn call_of(builder: &Builder, body: &[u8]) -> Result<Call, LineFault>
    requires { 45 ≤ length body.now }
    ensures said { Judged (λ c. c) result (entry_rules builder.now body.now)
        (record { cpu = cpu_in body.now; steps = steps_in body.now; regs = registers_in body.now }) }
    ensures few { IfOk result (λ c. c.cpu < 8) }
{
    let Some(cpus) = builder.cpus() else {
        return Err(LineFault::Broken(BadKind::Place));
    };
    if !have_forms(body) {
        return Err(LineFault::Broken(BadKind::Number));
    }
    let Some(regs) = registers(body) else {
        return Err(LineFault::Broken(BadKind::Range));
    };
    let cpu = body[0];
    let steps = word_at(body, 1);
    if !is_within(1, MAX_STEPS, steps) {
        return Err(LineFault::Broken(BadKind::Range));
    }
    if !is_there(cpus, u32::from(cpu)) {
        return Err(LineFault::Broken(BadKind::Cpu));
    }
    if builder.is_inside(cpu) {
        return Err(LineFault::Broken(BadKind::Inside));
    }
    Ok(Call { cpu, steps, regs })
}

/// A record `smc`.
fn take_smc(builder: &mut Builder, body: &[u8]) -> Result<(), LineFault>
    requires { 45 ≤ length body.now }
    ensures { IsTaken result (entry_rules builder.old body.now)
        (with_item builder.old (item.Smc (cpu_in body.now) (steps_in body.now) (registers_in body.now))) builder.new }
{
    let Call { cpu, steps, regs } = call_of(builder, body)?;
    builder.push_item(Item::Smc { cpu, steps, regs })
}

/// A record `enter`.
fn take_enter(builder: &mut Builder, body: &[u8]) -> Result<(), LineFault>
    requires { 45 ≤ length body.now }
    ensures { IsTaken result (entry_rules builder.old body.now)
        (with_item builder.old (item.Enter (cpu_in body.now) (steps_in body.now) (registers_in body.now))) builder.new }
{
    let Call { cpu, steps, regs } = call_of(builder, body)?;
    builder.push_item(Item::Enter { cpu, steps, regs })
}

/// A record `leave`.
fn take_leave(builder: &mut Builder, body: &[u8]) -> Result<(), LineFault>
    requires { 1 ≤ length body.now }
    ensures { IsTaken result (leave_rules builder.old body.now) (with_item builder.old (item.Leave (cpu_in body.now))) builder.new }
{
    let Some(cpus) = builder.cpus() else {
        return Err(LineFault::Broken(BadKind::Place));
    };
    let cpu = body[0];
    if !is_there(cpus, u32::from(cpu)) {
        return Err(LineFault::Broken(BadKind::Cpu));
    }
    if !builder.is_inside(cpu) {
        return Err(LineFault::Broken(BadKind::Inside));
    }
    builder.push_item(Item::Leave { cpu })
}

/// A record `write`, with its bytes.
fn take_write(
    alloc: Global,
    builder: &mut Builder,
    body: &[u8],
    bytes: &[u8],
) -> Result<(), LineFault>
    requires { 9 ≤ length body.now }
    ensures { IsTaken result (write_rules builder.old body.now bytes.now)
        (with_item builder.old (item.Write (cpu_in body.now) (number 8 1 body.now) bytes.now)) builder.new }
{
    let Some(cpus) = builder.cpus() else {
        return Err(LineFault::Broken(BadKind::Place));
    };
    if bytes.is_empty() {
        return Err(LineFault::Broken(BadKind::Range));
    }
    let cpu = body[0];
    let addr = long_at(body, 1);
    if !lies_in_ram(addr, bytes.len() as u64) {
        return Err(LineFault::Broken(BadKind::Range));
    }
    if !is_there(cpus, u32::from(cpu)) {
        return Err(LineFault::Broken(BadKind::Cpu));
    }
    let bytes = bytes.to_vec(alloc)?;
    builder.push_item(Item::Write {
        cpu,
        addr,
        bytes: Sequence::of(bytes),
    })
}

/// A record `show`.
fn take_show(builder: &mut Builder, body: &[u8]) -> Result<(), LineFault>
    requires { 13 ≤ length body.now }
    ensures { IsTaken result (show_rules builder.old body.now)
        (with_item builder.old (item.Show (cpu_in body.now) (number 8 1 body.now) (number 4 9 body.now))) builder.new }
{
    let Some(cpus) = builder.cpus() else {
        return Err(LineFault::Broken(BadKind::Place));
    };
    let cpu = body[0];
    let addr = long_at(body, 1);
    let len = word_at(body, 9);
    if !is_within(1, MAX_SHOWN, len) {
        return Err(LineFault::Broken(BadKind::Range));
    }
    if !lies_in_ram(addr, u64::from(len)) {
        return Err(LineFault::Broken(BadKind::Range));
    }
    if !is_there(cpus, u32::from(cpu)) {
        return Err(LineFault::Broken(BadKind::Cpu));
    }
    builder.push_item(Item::Show { cpu, addr, len })
}

/// A record of this kind, by its body and the bytes that stand behind what has its place there.
#[tactic(auto, unfolding(crate::specs::Rules::rules_of, crate::specs::Rules::added))]
fn take_body(
    alloc: Global,
    natives: &[Uuid],
    builder: &mut Builder,
    kind: RecordKind,
    body: &[u8],
    bytes: &[u8],
) -> Result<(), LineFault>
    requires { fixed_len kind ≤ length body.now }
    ensures { IsTaken result (rules_of kind natives.now builder.old body.now bytes.now) (added kind builder.old body.now bytes.now) builder.new }
{
    match kind {
        RecordKind::Boot => take_boot(builder, body),
        RecordKind::Ta => take_ta(alloc, natives, builder, body, bytes),
        RecordKind::Mem => take_mem(alloc, builder, body, bytes),
        RecordKind::Key => take_key(builder, body),
        RecordKind::Smc => take_smc(builder, body),
        RecordKind::Enter => take_enter(builder, body),
        RecordKind::Leave => take_leave(builder, body),
        RecordKind::Write => take_write(alloc, builder, body, bytes),
        RecordKind::Show => take_show(builder, body),
    }
}

/// Takes the record in front, and gives what stands behind it.
#[tactic(auto, unfolding(crate::specs::Rules::record_rules, crate::specs::Rules::after_record, crate::specs::Rules::behind_record))]
pub fn take_record<'a>(
    alloc: Global,
    natives: &[Uuid],
    builder: &mut Builder,
    bytes: &'a [u8],
) -> Result<&'a [u8], LineFault>
    requires { 0 < length bytes.now }
    ensures taken { IsTakenTo result (record_rules natives.now builder.old bytes.now) (after_record builder.old bytes.now) builder.new }
    ensures rest { IfOk result (λ rest. rest.now ≡ behind_record bytes.now) }
    ensures shorter { IfOk result (λ rest. length rest.now < length bytes.now) }
{
    let Some(kind) = RecordKind::tagged(bytes[0]) else {
        return Err(LineFault::Broken(BadKind::Item));
    };
    let body = &bytes[1..];
    let Some(len) = body_len(kind, body) else {
        return Err(LineFault::Broken(BadKind::Cut));
    };
    take_body(
        alloc,
        natives,
        builder,
        kind,
        body,
        &body[kind.fixed_len()..len],
    )?;
    Ok(&body[len..])
}
