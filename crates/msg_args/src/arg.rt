ghost use Rattle.std.specs.Prelude.{◌≡◌, ◌*◌, ◌≤◌, length, Ok, IfOk, All};
ghost use Rattle.std.specs.Simd.{first_chunks};
ghost use Rattle.arrayvec.specs.ArrayVec.{array_vec_len};
ghost use Rattle.msg_args.specs.Attribute.{IsAllowed};
ghost use Rattle.msg_args.specs.Spelling.{spelling, Spells};
ghost use Rattle.msg_args.specs.Reading.{argument, params_of};

use crate::head::{MsgHead, read_head};
use crate::param::MsgParam;
use arrayvec::ArrayVec;
use std::error::Error;
use std::fmt;

/// The most parameters that an argument has.
const MAX_PARAMS: u32 = 6;

/// An argument: its head and its parameters. It has a spelling where the head counts the parameters.
#[derive(Drop)]
pub struct MsgArg {
    pub head: MsgHead,
    pub params: ArrayVec<MsgParam, 6>,
}

/// Why bytes spell no argument. The tests come in the order `Length` for fewer than 32 bytes, `Count`,
/// `Length`, `Attr`.
#[derive(Clone, Copy, Debug, PartialEq, Eq)]
pub enum Misshapen {
    /// Fewer bytes than a head, or not the bytes of a head and as many parameters as it counts.
    Length,
    /// This count is above six.
    Count(u32),
    /// The parameter of this number, counted from 0, is the first whose attribute is not valid.
    Attr(u8),
}

impl fmt::Display for Misshapen {
    fn fmt<W: fmt::Write>(&self, f: &mut fmt::Formatter<W>) -> fmt::Result {
        match self {
            Misshapen::Length => f.write_str("wrong length of an argument"),
            Misshapen::Count(count) => write!(f, "{count} parameters, above six"),
            Misshapen::Attr(number) => write!(f, "attribute of parameter {number} is not valid"),
        }
    }
}

impl Error for Misshapen {}

/// The parameters at the front of these bytes, so many pieces of 32 bytes, or the first fault of their attributes, which is
/// `Attr`. The bytes are those behind a head, and the count is the head's.
pub fn read_params(count: u32, bytes: &[u8]) -> Result<ArrayVec<MsgParam, 6>, Misshapen>
    requires few { count ≤ 6 }
    requires room { 32 * count ≤ length bytes.now }
    ensures { result ≡ params_of (first_chunks 32 count bytes.now) }
{
    let (spelled, _) = bytes[..32 * count as usize].as_chunks::<32>();
    read_pieces(spelled)
}

fn read_pieces(spelled: &[[u8; 32]]) -> Result<ArrayVec<MsgParam, 6>, Misshapen>
    requires { length spelled.now ≤ 6 }
    ensures { result ≡ params_of spelled.now }
{
    let mut params = ArrayVec::new();
    for (number, bytes) in spelled.iter().enumerate() {
        let Some(param) = MsgParam::read(bytes) else {
            return Err(Misshapen::Attr(number as u8));
        };
        params.push(param);
    }
    Ok(params)
}

fn read(bytes: &[u8]) -> Result<MsgArg, Misshapen>
    ensures { result ≡ argument bytes.now }
{
    let Some((head, rest)) = bytes.split_first_chunk::<32>() else {
        return Err(Misshapen::Length);
    };
    let head = read_head(head);
    if head.count > MAX_PARAMS {
        return Err(Misshapen::Count(head.count));
    }
    if rest.len() != 32 * head.count as usize {
        return Err(Misshapen::Length);
    }
    let params = read_params(head.count, rest)?;
    Ok(MsgArg { head, params })
}

/// The argument that the bytes spell, all of the bytes, or the first fault.
pub fn read_arg(bytes: &[u8]) -> Result<MsgArg, Misshapen>
    // What is read is spelled so.
    ensures found { IfOk result (λ arg. Spells bytes.now arg) }
    // What is spelled so is read.
    ensures only { (arg : MsgArg) → Spells bytes.now arg → result ≡ Ok arg }
    // Which fault it is.
    ensures exact { result ≡ argument bytes.now }
{
    read(bytes)
}

/// The one spelling of the argument.
pub fn write_arg(arg: &MsgArg) -> ArrayVec<u8, 224>
    requires count { arg.now.head.count ≡ array_vec_len arg.now.params }
    requires params { All IsAllowed arg.now.params.items }
    ensures { result.items ≡ spelling arg.now }
{
    let mut bytes = ArrayVec::new();
    bytes.try_extend_from_slice(&arg.head.to_bytes()).unwrap();
    for param in arg.params.as_slice() {
        bytes.try_extend_from_slice(&param.to_bytes()).unwrap();
    }
    bytes
}
