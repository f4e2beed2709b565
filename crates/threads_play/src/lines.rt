//! The lines of a processor's block that are not those of `answer_lines`, each appended to those before it. At `Err` there was no
//! memory, and a part of the line may stand there.
ghost use Rattle.std.specs.Prelude.{◌≡◌, [], ◌∷◌, ◌++◌, codes, OnOk};
ghost use Rattle.std.specs.Fmt.{decimal};
ghost use Rattle.ordered_play.specs.Blocks.{full_line, placed_ret_line};

use answer_lines::{push_numbered, push_registers};
use normal_cpus::CpuAnswer;
use std::alloc::AllocError;

/// Appends a word and two numbers behind it, which end the line.
fn push_pair(block: &mut Vec<u8>, word: &[u8], first: u64, second: u64) -> Result<(), AllocError>
    ensures { OnOk result (block.new.items ≡ block.old.items ++ word.now ++ decimal first ++ 32 ∷ decimal second ++ 10 ∷ []) }
{
    push_numbered(block, word, first)?;
    push_numbered(block, b" ", second)?;
    block.push(b'\n')?;
    Ok(())
}

/// Appends the line that begins a processor's block.
pub fn push_head(block: &mut Vec<u8>, cpu: u8) -> Result<(), AllocError>
    ensures { OnOk result (block.new.items ≡ block.old.items ++ codes "cpu " ++ decimal cpu ++ 10 ∷ []) }
{
    push_numbered(block, b"cpu ", u64::from(cpu))?;
    block.push(b'\n')?;
    Ok(())
}

/// Appends the line of an exit: the processor, its registers, and the places of its entry and its exit in the history.
pub fn push_answer(block: &mut Vec<u8>, cpu: u8, answer: &CpuAnswer) -> Result<(), AllocError>
    ensures { OnOk result (block.new.items ≡ block.old.items
        ++ placed_ret_line cpu answer.now.regs.a answer.now.entry_at answer.now.exit_at) }
{
    push_numbered(block, b"ret ", u64::from(cpu))?;
    push_registers(block, &answer.regs)?;
    push_pair(block, b" at ", answer.entry_at, answer.exit_at)
}

/// Appends the line of a refused entry: how many bytes were read before it, and how many it would have read.
pub fn push_full(block: &mut Vec<u8>, copied: u64, more: u64) -> Result<(), AllocError>
    ensures { OnOk result (block.new.items ≡ block.old.items ++ full_line (record { copied = copied; more = more })) }
{
    push_pair(block, b"full ", copied, more)
}
