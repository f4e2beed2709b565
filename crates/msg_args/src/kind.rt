ghost use Rattle.std.specs.Prelude.{◌≡◌};
ghost use Rattle.msg_args.specs.Attribute.{kind_of, type_of, is_tmem};

use crate::constants::{
    OPTEE_MSG_ATTR_TYPE_NONE, OPTEE_MSG_ATTR_TYPE_RMEM_INOUT, OPTEE_MSG_ATTR_TYPE_RMEM_INPUT,
    OPTEE_MSG_ATTR_TYPE_RMEM_OUTPUT, OPTEE_MSG_ATTR_TYPE_TMEM_INOUT,
    OPTEE_MSG_ATTR_TYPE_TMEM_INPUT, OPTEE_MSG_ATTR_TYPE_TMEM_OUTPUT,
    OPTEE_MSG_ATTR_TYPE_VALUE_INOUT, OPTEE_MSG_ATTR_TYPE_VALUE_INPUT,
    OPTEE_MSG_ATTR_TYPE_VALUE_OUTPUT,
};

/// What a parameter is, and which way it goes, as seen by the one who is called: values, registered
/// memory (`Rmem`), or memory that the argument names by address (`Tmem`).
#[derive(Clone, Copy, Default)]
pub enum ParamKind {
    #[default]
    Empty,
    ValueIn,
    ValueOut,
    ValueInout,
    RmemIn,
    RmemOut,
    RmemInout,
    TmemIn,
    TmemOut,
    TmemInout,
}

impl ParamKind {
    /// The kind that a number stands for in the low byte of an attribute, if one has it.
    pub(crate) fn from_type(number: u8) -> Option<ParamKind>
        ensures { result ≡ kind_of number }
    {
        match number {
            OPTEE_MSG_ATTR_TYPE_NONE => Some(ParamKind::Empty),
            OPTEE_MSG_ATTR_TYPE_VALUE_INPUT => Some(ParamKind::ValueIn),
            OPTEE_MSG_ATTR_TYPE_VALUE_OUTPUT => Some(ParamKind::ValueOut),
            OPTEE_MSG_ATTR_TYPE_VALUE_INOUT => Some(ParamKind::ValueInout),
            OPTEE_MSG_ATTR_TYPE_RMEM_INPUT => Some(ParamKind::RmemIn),
            OPTEE_MSG_ATTR_TYPE_RMEM_OUTPUT => Some(ParamKind::RmemOut),
            OPTEE_MSG_ATTR_TYPE_RMEM_INOUT => Some(ParamKind::RmemInout),
            OPTEE_MSG_ATTR_TYPE_TMEM_INPUT => Some(ParamKind::TmemIn),
            OPTEE_MSG_ATTR_TYPE_TMEM_OUTPUT => Some(ParamKind::TmemOut),
            OPTEE_MSG_ATTR_TYPE_TMEM_INOUT => Some(ParamKind::TmemInout),
            _ => None,
        }
    }

    /// The number that stands for this kind in the low byte of an attribute.
    pub(crate) fn type_number(self) -> u8
        ensures { result ≡ type_of self }
    {
        match self {
            ParamKind::Empty => OPTEE_MSG_ATTR_TYPE_NONE,
            ParamKind::ValueIn => OPTEE_MSG_ATTR_TYPE_VALUE_INPUT,
            ParamKind::ValueOut => OPTEE_MSG_ATTR_TYPE_VALUE_OUTPUT,
            ParamKind::ValueInout => OPTEE_MSG_ATTR_TYPE_VALUE_INOUT,
            ParamKind::RmemIn => OPTEE_MSG_ATTR_TYPE_RMEM_INPUT,
            ParamKind::RmemOut => OPTEE_MSG_ATTR_TYPE_RMEM_OUTPUT,
            ParamKind::RmemInout => OPTEE_MSG_ATTR_TYPE_RMEM_INOUT,
            ParamKind::TmemIn => OPTEE_MSG_ATTR_TYPE_TMEM_INPUT,
            ParamKind::TmemOut => OPTEE_MSG_ATTR_TYPE_TMEM_OUTPUT,
            ParamKind::TmemInout => OPTEE_MSG_ATTR_TYPE_TMEM_INOUT,
        }
    }

    /// Whether this is memory that the argument names by address.
    pub(crate) fn is_tmem(self) -> bool
        ensures { result ≡ is_tmem self }
    {
        matches!(
            self,
            ParamKind::TmemIn | ParamKind::TmemOut | ParamKind::TmemInout
        )
    }
}
