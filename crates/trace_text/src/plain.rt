//! Lines `smc` and `write` that have no fault, read in one pass.

ghost use Rattle.std.specs.Prelude.{◌≡◌, ◌≤◌, nat_lt, true, IfSome};
ghost use Rattle.trace_text.specs.Limits.{is_within};
ghost use Rattle.trace_text.specs.Plain.{AreRegisters, BeginsWithDecimal, BeginsWithNumber, IsPlain, Writes};

use crate::digit::digit_of;
use crate::item::{Item, Reg};
use crate::limits::{MAX_STEPS, is_there, is_within, lies_in_ram};
use crate::said::Call;
use crate::word::{bytes, short_hexadecimal};
use base::Sequence;
use std::alloc::Global;

/// The most digits of a number in such a line: in hexadecimal they fill 32 bits.
const MAX_DIGITS: usize = 8;

/// The number in front of a line, and what stands behind the space after it.
#[inline(always)]
fn front_number(line: &[u8], radix: u8) -> Option<(u32, &[u8])>
    requires { radix ≤ 16 }
    ensures { IfSome result (λ x. BeginsWithNumber radix line.now x.0 x.1.now) }
{
    let mut number = 0u32;
    for (count, byte) in line.iter().enumerate() {
        let digit = digit_of(*byte);
        if digit >= radix {
            if *byte != b' ' || count == 0 {
                return None;
            }
            return Some((number, &line[count + 1..]));
        }
        if count >= MAX_DIGITS {
            return None;
        }
        number = number * u32::from(radix) + u32::from(digit);
    }
    None
}

/// The decimal number in front of a line, and what stands behind the space after it.
#[inline(always)]
fn front_decimal(line: &[u8]) -> Option<(u32, &[u8])>
    ensures { IfSome result (λ x. BeginsWithDecimal line.now x.0 x.1.now) }
{
    if let Some(rest) = line.strip_prefix(b"0 ") {
        return Some((0, rest));
    }
    if line.is_empty() || line[0] == b'0' {
        return None;
    }
    front_number(line, 10)
}

/// The eight registers that the words of a line are.
#[inline(always)]
fn registers(line: &[u8]) -> Option<[Reg; 8]>
    ensures { IfSome result (λ regs. AreRegisters line.now regs) }
{
    let mut rest = line;
    let mut regs = [Reg::Num(0); 8];
    for place in 0..7 {
        let (number, behind) = front_number(rest, 16)?;
        regs[place] = Reg::Num(number);
        rest = behind;
    }
    regs[7] = Reg::Num(short_hexadecimal(rest)?);
    Some(regs)
}

/// What a line `smc` says that has no fault but for who is inside, and whose registers are all numbers.
pub fn plain_call(cpus: u8, line: &[u8]) -> Option<Call>
    ensures said { IfSome result (λ c. IsPlain line.now c.cpu c.steps c.regs) }
    ensures there { IfSome result (λ c. nat_lt c.cpu cpus ≡ true) }
    ensures granted { IfSome result (λ c. is_within 1 1000000 c.steps ≡ true) }
{
    let rest = line.strip_prefix(b"smc ")?;
    let (cpu, rest) = front_decimal(rest)?;
    let (steps, rest) = front_decimal(rest)?;
    let regs = registers(rest)?;
    if !is_within(1, MAX_STEPS, steps) || !is_there(cpus, cpu) {
        return None;
    }
    Some(Call {
        cpu: cpu as u8,
        steps,
        regs,
    })
}

/// What a line `write` says that has no fault, on a core of so many processors. An address in RAM has up to eight digits, but for
/// zeros before them.
pub fn plain_write(alloc: Global, cpus: u8, line: &[u8]) -> Option<Item>
    ensures { IfSome result (Writes cpus line.now) }
{
    let rest = line.strip_prefix(b"write ")?;
    let (cpu, rest) = front_decimal(rest)?;
    let (addr, rest) = front_number(rest, 16)?;
    if rest.is_empty() || !is_there(cpus, cpu) {
        return None;
    }
    let addr = u64::from(addr);
    let bytes = bytes(alloc, rest).ok()?;
    if !lies_in_ram(addr, bytes.len() as u64) {
        return None;
    }
    Some(Item::Write {
        cpu: cpu as u8,
        addr,
        bytes: Sequence::of(bytes),
    })
}
