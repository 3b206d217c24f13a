//! How the program ends: its exit status, and what it then writes to standard error.

ghost use Rattle.std.specs.Prelude.{◌≡◌, true, false, IfErr, OnOk, OnErr};
ghost use Rattle.std.specs.Process.{exit_status};
ghost use Rattle.rd_devices.specs.Streams.{sink_stream};
ghost use Rattle.rd_program.specs.Endings.{EndsAs, TakesUnlessFailed, refusal_of_end, error_line, viewer_line, viewer_lines, viewers_status};

use super::faults::ProgramFault;
use super::setups::Done;
use rd_cell::Refusal;
use rd_devices::{ScriptFault, Sink, write_all};
use rd_text::{AnyRefusal, Text, set_answer, set_viewer_refusal};
use rd_view::ViewerEnd;
use std::process::ExitCode;

/// Writes to standard error the line of the fault, if there is one, or a line for each viewer that
/// did not come to the end of its source, in order. Returns the exit status: 0, or 1 if there is
/// such a line. If standard error fails, it has taken a beginning of these lines, and the status is
/// the same. It must not have failed before.
pub fn show_program_fault<E: Sink>(outcome: &Result<Done, ProgramFault>, errors: &mut E) -> ExitCode
    requires { E.has_failed errors.old ≡ false }
    ensures { EndsAs outcome.now (exit_status result) (sink_stream E.Sink errors.old errors.new) }
{
    match outcome {
        Ok(Done::Counted(_)) => ExitCode::from(0),
        Ok(Done::Lived(ends)) => {
            let _ = write_viewer_lines(errors, ends.as_slice());
            viewers_status(ends.as_slice())
        }
        Err(fault) => {
            let mut text = Text::new();
            set_answer(&mut text, &Err(fault.refusal()));
            let _ = write_error_line(errors, text.as_slice());
            ExitCode::from(1)
        }
    }
}

/// Returns the exit status after viewers that ended so: 0 if each came to the end of its source,
/// else 1.
fn viewers_status(ends: &[ViewerEnd]) -> ExitCode
    ensures { exit_status result ≡ viewers_status ends.now }
{
    for end in ends {
        if refusal_of_end(*end).is_some() {
            return ExitCode::from(1);
        }
    }
    ExitCode::from(0)
}

/// Writes to a stream that has not failed a line for each viewer that did not come to the end of
/// its source, in order. Fails with `Write` if the stream fails; it has then taken a beginning of
/// these lines.
fn write_viewer_lines<K: Sink>(stream: &mut K, ends: &[ViewerEnd]) -> Result<(), ScriptFault>
    requires { K.has_failed stream.old ≡ false }
    ensures lines { TakesUnlessFailed (sink_stream K.Sink stream.old stream.new)
        (viewer_lines 1 ends.now) }
    ensures fault { IfErr result (λ fault. fault ≡ ScriptFault.Write) }
{
    for i in 0..ends.len() {
        write_viewer_line(stream, i as u64 + 1, ends[i])?;
    }
    Ok(())
}

/// Writes to a stream that has not failed the line for a viewer that did not come to the end of its
/// source; nothing for another one. Fails with `Write` if the stream fails; it has then taken a
/// beginning of the line.
fn write_viewer_line<K: Sink>(
    stream: &mut K,
    viewer: u64,
    end: ViewerEnd,
) -> Result<(), ScriptFault>
    requires { K.has_failed stream.old ≡ false }
    ensures line { TakesUnlessFailed (sink_stream K.Sink stream.old stream.new)
        (viewer_line viewer end) }
    ensures works { OnOk result (K.has_failed stream.new ≡ false) }
    ensures fails { OnErr result (K.has_failed stream.new ≡ true) }
    ensures fault { IfErr result (λ fault. fault ≡ ScriptFault.Write) }
{
    let Some(refusal) = refusal_of_end(end) else {
        return Ok(());
    };
    let mut text = Text::new();
    set_viewer_refusal(&mut text, viewer, &refusal);
    write_error_line(stream, text.as_slice())
}

/// Returns the refusal that the program shows for a viewer that ended so, or none if it came to the
/// end of its source.
fn refusal_of_end(end: ViewerEnd) -> Option<AnyRefusal>
    ensures { result ≡ refusal_of_end end }
{
    match end {
        ViewerEnd::Ended(_) => None,
        ViewerEnd::Stopped(fault) => Some(AnyRefusal::Stopped(fault)),
        ViewerEnd::NotStarted => Some(AnyRefusal::Refused(Refusal::NoMemory)),
    }
}

/// Writes the program's name and this line to a stream that has not failed. Fails with `Write` if
/// the stream fails; it has then taken a beginning of this text.
fn write_error_line<K: Sink>(stream: &mut K, line: &[u8]) -> Result<(), ScriptFault>
    requires { K.has_failed stream.old ≡ false }
    ensures line { TakesUnlessFailed (sink_stream K.Sink stream.old stream.new)
        (error_line line.now) }
    ensures works { OnOk result (K.has_failed stream.new ≡ false) }
    ensures fails { OnErr result (K.has_failed stream.new ≡ true) }
    ensures fault { IfErr result (λ fault. fault ≡ ScriptFault.Write) }
{
    write_all(stream, b"lcrqdb: ")?;
    write_all(stream, line)
}
