//! The instances of applications, and counts.

ghost use Rattle.std.specs.Prelude.{◌≡◌, ◌∷◌, ◌++◌, OnOk};
ghost use Rattle.kernel_state.specs.Tables.{instance_of, tables_of};
ghost use Rattle.uuid.specs.Text.{hyphenated_text};
ghost use Rattle.live_play.specs.State.{count_line, holder_text, instance_line, instance_lines, life_text};

use answer_lines::push_numbered;
use kernel_state::Tables;
use std::alloc::AllocError;
use ta_instances::Instance;
use uuid::Uuid;

/// Appends who holds an instance.
fn push_holder(text: &mut Vec<u8>, holder: Option<u8>) -> Result<(), AllocError>
    ensures { OnOk result (text.new.items ≡ text.old.items ++ holder_text holder) }
{
    match holder {
        Some(slot) => push_numbered(text, b" held ", u64::from(slot)),
        None => text.extend_from_slice(b" idle"),
    }
}

/// Appends a UUID.
fn push_uuid(text: &mut Vec<u8>, uuid: Uuid) -> Result<(), AllocError>
    ensures { OnOk result (text.new.items ≡ text.old.items ++ 32 ∷ hyphenated_text 97 uuid) }
{
    let mut buffer = Uuid::encode_buffer();
    text.push(b' ')?;
    text.extend_from_slice(uuid.hyphenated().encode_lower(&mut buffer).as_bytes())
}

/// Appends whether an instance is dead.
fn push_life(text: &mut Vec<u8>, dead: bool) -> Result<(), AllocError>
    ensures { OnOk result (text.new.items ≡ text.old.items ++ life_text dead) }
{
    if dead {
        return text.extend_from_slice(b" dead");
    }
    text.extend_from_slice(b" alive")
}

/// Appends the line of an instance.
fn push_instance(
    text: &mut Vec<u8>,
    tables: &Tables,
    number: u32,
    instance: &Instance,
) -> Result<(), AllocError>
    ensures { OnOk result (
        text.new.items ≡ text.old.items ++ instance_line (tables_of tables.now) number (instance_of instance.now)) }
{
    let users = tables.sessions.users(number).all;
    push_numbered(text, b"instance ", u64::from(number))?;
    push_uuid(text, instance.uuid)?;
    push_numbered(text, b" users ", u64::from(users))?;
    push_holder(text, instance.holder)?;
    push_life(text, instance.dead)?;
    text.push(b'\n')?;
    Ok(())
}

/// Appends the lines of all instances that are kept, in rising order of their numbers.
pub(crate) fn push_instances(text: &mut Vec<u8>, tables: &Tables) -> Result<(), AllocError>
    ensures { OnOk result (text.new.items ≡ text.old.items ++ instance_lines (tables_of tables.now)) }
{
    let kept = tables.instances.entries();
    for entry in kept {
        push_instance(text, tables, entry.0 as u32, &entry.1)?;
    }
    Ok(())
}

/// Appends a line of a word and a number.
pub(crate) fn push_count(text: &mut Vec<u8>, word: &[u8], number: u64) -> Result<(), AllocError>
    ensures { OnOk result (text.new.items ≡ text.old.items ++ count_line word.now number) }
{
    text.extend_from_slice(word)?;
    push_numbered(text, b" ", number)?;
    text.push(b'\n')?;
    Ok(())
}
