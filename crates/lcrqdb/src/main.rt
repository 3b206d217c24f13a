//! A causal reversible debugger for LCRQ.
//!
//! `lcrqdb run FILE` runs a script over a fresh world: each line is one command, whose reply is
//! written as one line to standard output before the next line is read. `lcrqdb load TRACE` runs
//! the script on standard input over the run of a trace. `lcrqdb view FILE..` runs several scripts
//! at once over one fresh world or, with `--start`, over the run of a trace, each by a viewer in its
//! own thread.
//!
//! All of this is done by the library `rd_command_line`, which gets the words, the files and the
//! three streams from `main`. Standard output has no buffer, so that a reply is written at once.
#![tactic(auto)]

use rd_command_line::{command_line_words, run_command_line};
use rd_devices::{ReadSource, WriteSink};
use std::process::ExitCode;

/// Does what the command line asks for, and returns the exit status.
fn main(rt: HostRuntime) -> ExitCode {
    run_command_line(
        &rt,
        rt.alloc(),
        command_line_words(&rt),
        &mut ReadSource::new(rt.stdin()),
        &mut WriteSink::new(rt.stdout()),
        &mut WriteSink::new(rt.stderr()),
    )
}
