//! The argument of a call: a head and up to six parameters, as bytes and as values.
//!
//! The client of the normal world writes an argument into shared memory, and the call answers there.
//! This crate reads bytes into an argument and writes an argument as bytes. It follows no address and
//! knows nothing of what a command means. The layout and the names of the constants are those of the
//! public header `optee_msg.h`, `struct optee_msg_arg` and `struct optee_msg_param`. The limit of six
//! parameters is this project's own.
//!
//! Nothing here takes memory.
//!
//! It touches no RAM, no port and no thread.
//!
//! # What is proved
//!
//! `read_arg` answers Ok exactly for spellings, and each refusal exactly where the definition has it, in its order.
//! `read_params` gives the parameters of a count, or the first whose attribute isn't valid. `write_arg` gives the
//! spelling; reading what was written and writing what was read give it back (`one_spelling`). The places of an
//! argument's parts are the numbers of the header.
#![tactic(auto)]

mod arg;
mod constants;
mod head;
mod kind;
mod laws;
mod layout;
mod param;

pub use arg::{Misshapen, MsgArg, read_arg, read_params, write_arg};
pub use constants::{
    OPTEE_MSG_ATTR_CACHE_MASK, OPTEE_MSG_ATTR_CACHE_PREDEFINED, OPTEE_MSG_ATTR_CACHE_SHIFT,
    OPTEE_MSG_ATTR_META, OPTEE_MSG_ATTR_NONCONTIG, OPTEE_MSG_ATTR_TYPE_MASK,
    OPTEE_MSG_ATTR_TYPE_NONE, OPTEE_MSG_ATTR_TYPE_RMEM_INOUT, OPTEE_MSG_ATTR_TYPE_RMEM_INPUT,
    OPTEE_MSG_ATTR_TYPE_RMEM_OUTPUT, OPTEE_MSG_ATTR_TYPE_TMEM_INOUT,
    OPTEE_MSG_ATTR_TYPE_TMEM_INPUT, OPTEE_MSG_ATTR_TYPE_TMEM_OUTPUT,
    OPTEE_MSG_ATTR_TYPE_VALUE_INOUT, OPTEE_MSG_ATTR_TYPE_VALUE_INPUT,
    OPTEE_MSG_ATTR_TYPE_VALUE_OUTPUT, OPTEE_MSG_CMD_CANCEL, OPTEE_MSG_CMD_CLOSE_SESSION,
    OPTEE_MSG_CMD_DO_BOTTOM_HALF, OPTEE_MSG_CMD_INVOKE_COMMAND, OPTEE_MSG_CMD_OPEN_SESSION,
    OPTEE_MSG_CMD_REGISTER_SHM, OPTEE_MSG_CMD_STOP_ASYNC_NOTIF, OPTEE_MSG_CMD_UNREGISTER_SHM,
};
pub use head::{MsgHead, read_head};
pub use kind::ParamKind;
pub use laws::{one_spelling, worked_examples};
pub use layout::{HEAD_LEN, PARAM_LEN, origin_at, p_at, param_place, q_at, ret_at, session_at};
pub use param::MsgParam;
