//! Message arguments as bytes.

ghost use Rattle.std.specs.Prelude.{◌≡◌, ◌++◌, OnOk};
ghost use Rattle.workload.specs.Message.{head, long_words, param, words};

use base::NoMemory;
use byteorder::{ByteOrder, LittleEndian};

/// What a head says beside pad, ret and origin, which are 0.
#[derive(Clone, Copy)]
pub struct Head {
    pub cmd: u32,
    pub func: u32,
    pub session: u32,
    pub cancel_id: u32,
    pub count: u32,
}

/// Appends numbers of four bytes.
fn put_words(out: &mut Vec<u8>, numbers: &[u32]) -> Result<(), NoMemory>
    ensures { OnOk result (out.new.items ≡ out.old.items ++ words numbers.now) }
{
    for number in numbers {
        let mut bytes = [0; 4];
        LittleEndian::write_u32(&mut bytes, *number);
        out.extend_from_slice(&bytes)?;
    }
    Ok(())
}

/// Appends numbers of eight bytes.
fn put_long_words(out: &mut Vec<u8>, numbers: &[u64]) -> Result<(), NoMemory>
    ensures { OnOk result (out.new.items ≡ out.old.items ++ long_words numbers.now) }
{
    for number in numbers {
        let mut bytes = [0; 8];
        LittleEndian::write_u64(&mut bytes, *number);
        out.extend_from_slice(&bytes)?;
    }
    Ok(())
}

/// Appends a head.
#[tactic(auto, unfolding(crate::specs::Message::head))]
pub fn put_head(out: &mut Vec<u8>, h: Head) -> Result<(), NoMemory>
    ensures { OnOk result (out.new.items ≡ out.old.items ++ head h) }
{
    put_words(
        out,
        &[h.cmd, h.func, h.session, h.cancel_id, 0, 0, 0, h.count],
    )
}

/// Appends a parameter.
#[tactic(auto, unfolding(crate::specs::Message::param))]
pub fn put_param(out: &mut Vec<u8>, attr: u64, p: u64, q: u64, s: u64) -> Result<(), NoMemory>
    ensures { OnOk result (out.new.items ≡ out.old.items ++ param attr p q s) }
{
    put_long_words(out, &[attr, p, q, s])
}
