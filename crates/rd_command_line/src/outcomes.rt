//! The outcome of a command line, and how the program ends after it.

ghost use Rattle.std.specs.Prelude.{◌≡◌, false, true, Err};
ghost use Rattle.std.specs.Process.{exit_status};
ghost use Rattle.rd_devices.specs.Streams.{sink_stream};
ghost use Rattle.rd_program.specs.Endings.{TakesUnlessFailed};
ghost use Rattle.rd_command_line.specs.Outcomes.{Ends, is_shown};

use rd_devices::{Sink, write_all};
use rd_options::OptionsFault;
use rd_program::{Done, ProgramFault};
use std::alloc::Global;
use std::process::ExitCode;

/// The message for a command line with more files than there may be viewers.
const TOO_MANY_FILES: &str = "lcrqdb: 1 to 64 files\n";

/// The message for viewers that are there at once and would share a file.
const SHARED_FILE: &str = "lcrqdb: no two viewers of --live can share a file\n";

/// The outcome of a command line. `Ok(Ok(done))`: all that it asks for was done, with the number of
/// the script's lines, for `view` the number of recorded calls, or for `view --live` how each
/// viewer ended. `Ok(Err(fault))`: not all was done. `Err(fault)`: the command line gives no
/// options.
pub type Outcome = Result<Result<Done, ProgramFault>, OptionsFault>;

/// Writes the message of an outcome, if it has one, and returns the exit status: 0 if all was done
/// and each viewer came to the end of its file, or if the outcome is `Shown`; 2 after `Refused`,
/// `TooManyFiles` or `SharedFile`; and 1 after any other fault.
/// The text of `Shown` goes to standard output, any other message to standard error. If memory for
/// a text of `clap` is refused, the program ends as after `NoMemory`, with status 1. The status is
/// the same if a stream fails, and a stream that gets no message is not called. Standard error must
/// not have failed before, nor must standard output if the outcome is `Shown`.
pub fn show_outcome<O: Sink, E: Sink>(
    alloc: Global,
    outcome: &Outcome,
    output: &mut O,
    errors: &mut E,
) -> ExitCode
    requires output_works { is_shown outcome.now ≡ true → O.has_failed output.old ≡ false }
    requires errors_work { E.has_failed errors.old ≡ false }
    ensures { Ends outcome.now (exit_status result) (O.has_failed output.old)
        (sink_stream O.Sink output.old output.new) (sink_stream E.Sink errors.old errors.new) }
{
    match outcome {
        Ok(done) => rd_program::show_program_fault(done, errors),
        Err(fault) => show_options_fault(alloc, fault, output, errors),
    }
}

/// Writes the message for a command line that gives no options, and returns the exit status: 0
/// after `Shown`, 2 after `Refused`, `TooManyFiles` or `SharedFile`, 1 after `NoMemory`. If memory
/// for a text of `clap` is refused, the program ends as after `NoMemory`. The status is the same if
/// a stream fails, and a stream that gets no message is not called. Standard error must not have
/// failed before, nor must standard output if the fault is `Shown`.
fn show_options_fault<O: Sink, E: Sink>(
    alloc: Global,
    fault: &OptionsFault,
    output: &mut O,
    errors: &mut E,
) -> ExitCode
    requires output_works { is_shown (Err fault.now) ≡ true → O.has_failed output.old ≡ false }
    requires errors_work { E.has_failed errors.old ≡ false }
    ensures { Ends (Err fault.now) (exit_status result) (O.has_failed output.old)
        (sink_stream O.Sink output.old output.new) (sink_stream E.Sink errors.old errors.new) }
{
    match fault {
        OptionsFault::Shown(error) => match error.to_string(alloc) {
            Ok(text) => {
                show_text(output, text.as_str());
                ExitCode::from(0)
            }
            Err(_) => rd_program::show_program_fault(&Err(ProgramFault::NoMemory), errors),
        },
        OptionsFault::Refused(error) => match error.to_string(alloc) {
            Ok(text) => {
                show_text(errors, text.as_str());
                ExitCode::from(2)
            }
            Err(_) => rd_program::show_program_fault(&Err(ProgramFault::NoMemory), errors),
        },
        OptionsFault::TooManyFiles => {
            show_text(errors, TOO_MANY_FILES);
            ExitCode::from(2)
        }
        OptionsFault::SharedFile => {
            show_text(errors, SHARED_FILE);
            ExitCode::from(2)
        }
        OptionsFault::NoMemory => rd_program::show_program_fault(
            &Err(ProgramFault::NoMemory),
            errors,
        ),
    }
}

/// Writes a text to a stream that has not failed. If the stream fails, it has taken a beginning of
/// the text, and the failure is ignored.
fn show_text<K: Sink>(stream: &mut K, text: &str)
    requires { K.has_failed stream.old ≡ false }
    ensures { TakesUnlessFailed (sink_stream K.Sink stream.old stream.new) text.now }
{
    let _ = write_all(stream, text.as_bytes());
}
