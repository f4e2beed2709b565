//! Reads a trace from standard input, plays it, prints its lines, and ends with the number of the status.
#![tactic(auto)]

use command_line::{exit_status, read_command_line};
use native_tas::program_natives;
use ports::{NoPace, StdSink, StdSource};
use std::alloc::AllocError;
use std::io;
use std::process::ExitCode;
use trace_runner::{AtEnd, run};

fn main(rt: HostRuntime) -> ExitCode {
    let Ok(line) = read_command_line(&rt) else {
        return ExitCode::from(exit_status(Err(AllocError)));
    };
    let Ok(natives) = program_natives!(rt.alloc()) else {
        return ExitCode::from(exit_status(Err(AllocError)));
    };
    let mut input = StdSource::new(rt.reader());
    let mut out = StdSink::new(io::writer(&rt));
    let words = line.words();
    let status = run(
        &rt,
        rt.alloc(),
        words,
        &mut input,
        &mut out,
        &natives,
        &NoPace,
        AtEnd::LeaveToProcess,
    );
    ExitCode::from(exit_status(Ok(status.number())))
}
