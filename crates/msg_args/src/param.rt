ghost use Rattle.std.specs.Prelude.{◌≡◌, ◌≤◌, not, ◌||◌, Some, None, if◌then◌else◌};
ghost use Rattle.msg_args.specs.Attribute.{attribute, is_attribute, is_tmem};
ghost use Rattle.msg_args.specs.Spelling.{param_bytes};
ghost use Rattle.msg_args.specs.Reading.{param_of, param_at, has_attribute};

use crate::constants::{
    OPTEE_MSG_ATTR_CACHE_MASK, OPTEE_MSG_ATTR_CACHE_SHIFT, OPTEE_MSG_ATTR_META,
    OPTEE_MSG_ATTR_NONCONTIG, OPTEE_MSG_ATTR_TYPE_MASK,
};
use crate::kind::ParamKind;
use byteorder::{ByteOrder, LittleEndian};

/// One parameter: 32 bytes, which are an attribute and three numbers of eight bytes each, the lowest
/// byte first. The attribute has the kind in its low byte, META in bit 8, NONCONTIG in bit 9, and the
/// cache field in bits 16 to 18. Its other bits are 0.
///
/// | Offset | 8 | 16 | 24 |
/// |---|---|---|---|
/// | Field | p | q | s |
/// | Value | a | b | c |
/// | Rmem | offset | size | shm_ref |
/// | Tmem | buf_ptr | size | shm_ref |
#[derive(Clone, Copy, Default)]
pub struct MsgParam {
    pub kind: ParamKind,
    pub meta: bool,
    /// It stands only with a tmem kind.
    pub noncontig: bool,
    /// At most 7. It is kept and has no effect.
    pub cache: u8,
    pub p: u64,
    pub q: u64,
    pub s: u64,
}

impl MsgParam {
    /// Whether NONCONTIG stands only with a tmem.
    fn is_noncontig_allowed(&self) -> bool
        ensures { result ≡ (not self.now.noncontig || is_tmem self.now.kind) }
    {
        !self.noncontig || self.kind.is_tmem()
    }

    /// The attribute that says what this parameter is.
    fn attribute(&self) -> u64
        requires { self.now.cache ≤ 7 }
        ensures { result ≡ attribute self.now }
    {
        let mut attribute = u64::from(self.kind.type_number());
        if self.meta {
            attribute |= OPTEE_MSG_ATTR_META;
        }
        if self.noncontig {
            attribute |= OPTEE_MSG_ATTR_NONCONTIG;
        }
        attribute | (u64::from(self.cache) << OPTEE_MSG_ATTR_CACHE_SHIFT)
    }

    /// The parameter of an attribute and three numbers, if the attribute is valid.
    fn from_words(attribute: u64, p: u64, q: u64, s: u64) -> Option<MsgParam>
        ensures { result ≡ (if is_attribute attribute then Some (param_of attribute p q s) else None) }
    {
        let param = MsgParam {
            kind: ParamKind::from_type((attribute & OPTEE_MSG_ATTR_TYPE_MASK) as u8)?,
            meta: attribute & OPTEE_MSG_ATTR_META != 0,
            noncontig: attribute & OPTEE_MSG_ATTR_NONCONTIG != 0,
            cache: (attribute >> OPTEE_MSG_ATTR_CACHE_SHIFT & OPTEE_MSG_ATTR_CACHE_MASK) as u8,
            p,
            q,
            s,
        };
        // No bit may stand beside those that the parts set.
        if param.attribute() != attribute {
            return None;
        }
        if !param.is_noncontig_allowed() {
            return None;
        }
        Some(param)
    }

    /// The parameter that these bytes spell, if their attribute is valid.
    pub(crate) fn read(bytes: &[u8; 32]) -> Option<MsgParam>
        ensures { result ≡ (if has_attribute bytes.now then Some (param_at bytes.now) else None) }
    {
        MsgParam::from_words(
            LittleEndian::read_u64(&bytes[0..]),
            LittleEndian::read_u64(&bytes[8..]),
            LittleEndian::read_u64(&bytes[16..]),
            LittleEndian::read_u64(&bytes[24..]),
        )
    }

    /// The one spelling of this parameter.
    pub(crate) fn to_bytes(&self) -> [u8; 32]
        requires { self.now.cache ≤ 7 }
        ensures { result ≡ param_bytes self.now }
    {
        let mut bytes = [0; 32];
        LittleEndian::write_u64_into(&[self.attribute(), self.p, self.q, self.s], &mut bytes);
        bytes
    }
}
