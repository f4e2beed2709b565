#![tactic(auto, using(crate::proofs::Fronts::all_kept, crate::proofs::Fronts::more_kept, crate::proofs::Fronts::kept_on))]

ghost use Rattle.std.specs.Prelude.{◌≡◌, ◌<◌, ◌^◌, [], ◌∷◌, ◌++◌, length, take, OnOk};
ghost use Rattle.std.specs.Fmt.{decimal};
ghost use Rattle.std.specs.List.{flat_map};
ghost use Rattle.hex.specs.Hex.{encode_lower};
ghost use Rattle.play_model.specs.Line.{mem_line, register_text, ret_line};

use crate::digits::register_text;
use itoa::Buffer;
use smc_abi::Regs;
use std::alloc::{AllocError, Global};

/// Appends a word and the number behind it, in decimal.
pub fn push_numbered(text: &mut Vec<u8>, word: &[u8], number: u64) -> Result<(), AllocError>
    ensures told { OnOk result (text.new.items ≡ text.old.items ++ word.now ++ decimal number) }
    ensures kept { take (length text.old.items) text.new.items ≡ text.old.items }
{
    let mut buffer = Buffer::new();
    text.extend_from_slice(word)?;
    text.extend_from_slice(buffer.format(number).as_bytes())
}

/// Appends eight registers, each a space and eight lower-case hexadecimal digits.
pub fn push_registers(text: &mut Vec<u8>, regs: &Regs) -> Result<(), AllocError>
    ensures told { OnOk result (text.new.items ≡ text.old.items ++ flat_map register_text regs.now.a) }
    ensures kept { take (length text.old.items) text.new.items ≡ text.old.items }
{
    let [a0, a1, a2, a3, a4, a5, a6, a7] = regs.a;
    let texts = [
        register_text(a0),
        register_text(a1),
        register_text(a2),
        register_text(a3),
        register_text(a4),
        register_text(a5),
        register_text(a6),
        register_text(a7),
    ];
    text.extend_from_slice(texts.as_flattened())
}

/// Appends bytes in lower-case hexadecimal digits, which end the line.
pub fn push_hex(alloc: Global, text: &mut Vec<u8>, bytes: &[u8]) -> Result<(), AllocError>
    ensures told { OnOk result (text.new.items ≡ text.old.items ++ encode_lower bytes.now ++ 10 ∷ []) }
    ensures kept { take (length text.old.items) text.new.items ≡ text.old.items }
{
    text.extend_from_slice(hex::encode(alloc, bytes)?.as_bytes())?;
    text.push(b'\n')?;
    Ok(())
}

/// Appends the line of an exit: the processor and the eight registers that it has then.
pub fn push_ret(text: &mut Vec<u8>, cpu: u8, regs: &Regs) -> Result<(), AllocError>
    ensures told { OnOk result (text.new.items ≡ text.old.items ++ ret_line cpu regs.now.a) }
    ensures kept { take (length text.old.items) text.new.items ≡ text.old.items }
{
    push_numbered(text, b"ret ", u64::from(cpu))?;
    push_registers(text, regs)?;
    text.push(b'\n')?;
    Ok(())
}

/// Appends an address and the bytes that lie there, which end the line.
fn push_bytes_at(
    alloc: Global,
    text: &mut Vec<u8>,
    addr: u64,
    bytes: &[u8],
) -> Result<(), AllocError>
    requires { addr < 2 ^ 32 }
    ensures told { OnOk result (text.new.items ≡ text.old.items ++ register_text addr ++ 32 ∷ encode_lower bytes.now ++ 10 ∷ []) }
    ensures kept { take (length text.old.items) text.new.items ≡ text.old.items }
{
    text.extend_from_slice(&register_text(addr as u32))?;
    text.push(b' ')?;
    push_hex(alloc, text, bytes)
}

/// Appends the line of bytes of a processor's RAM, which lie from an address on.
pub fn push_mem(
    alloc: Global,
    text: &mut Vec<u8>,
    cpu: u8,
    addr: u64,
    bytes: &[u8],
) -> Result<(), AllocError>
    requires { addr < 2 ^ 32 }
    ensures told { OnOk result (text.new.items ≡ text.old.items ++ mem_line cpu addr bytes.now) }
    ensures kept { take (length text.old.items) text.new.items ≡ text.old.items }
{
    push_numbered(text, b"mem ", u64::from(cpu))?;
    push_bytes_at(alloc, text, addr, bytes)
}
