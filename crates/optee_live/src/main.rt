//! Holds a conversation with a core over standard input and output: each line is answered before the next one is read.
//! `docs/conversation.md` has its lines.
#![tactic(auto)]

use command_line::{exit_status, read_command_line};
use line_port::StdPort;
use live_runner::run;
use native_tas::program_natives;
use ports::StdSink;
use std::alloc::AllocError;
use std::io;
use std::process::ExitCode;

/// The status that the program comes to.
fn status(rt: &HostRuntime) -> Result<u8, AllocError> {
    let line = read_command_line(rt)?;
    let natives = program_natives!(rt.alloc())?;
    let mut port = StdPort::new(rt.alloc(), rt.reader(), io::writer(rt))?;
    let mut out = StdSink::new(io::writer(rt));
    Ok(run(rt.alloc(), &line, &natives, &mut port, &mut out))
}

fn main(rt: HostRuntime) -> ExitCode {
    ExitCode::from(exit_status(status(&rt)))
}
