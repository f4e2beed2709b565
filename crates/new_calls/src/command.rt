ghost use Rattle.std.specs.Prelude.{◌≡◌};
ghost use Rattle.std.specs.Option.{option_map};
ghost use Rattle.kernel_model.specs.NewCall.{command_of};
ghost use Rattle.new_calls.specs.Commands.{tests_of};

use msg_args::{
    OPTEE_MSG_CMD_CANCEL, OPTEE_MSG_CMD_CLOSE_SESSION, OPTEE_MSG_CMD_INVOKE_COMMAND,
    OPTEE_MSG_CMD_OPEN_SESSION, OPTEE_MSG_CMD_REGISTER_SHM, OPTEE_MSG_CMD_UNREGISTER_SHM,
};

/// A command of `optee_msg.h` that is served.
#[derive(Clone, Copy)]
pub(crate) enum Command {
    OpenSession,
    InvokeCommand,
    CloseSession,
    Cancel,
    RegisterMemory,
    UnregisterMemory,
}

/// The command of a number, where there is one.
pub(crate) fn command_of(cmd: u32) -> Option<Command>
    ensures { option_map tests_of result ≡ command_of cmd }
{
    match cmd {
        OPTEE_MSG_CMD_OPEN_SESSION => Some(Command::OpenSession),
        OPTEE_MSG_CMD_INVOKE_COMMAND => Some(Command::InvokeCommand),
        OPTEE_MSG_CMD_CLOSE_SESSION => Some(Command::CloseSession),
        OPTEE_MSG_CMD_CANCEL => Some(Command::Cancel),
        OPTEE_MSG_CMD_REGISTER_SHM => Some(Command::RegisterMemory),
        OPTEE_MSG_CMD_UNREGISTER_SHM => Some(Command::UnregisterMemory),
        _ => None,
    }
}
