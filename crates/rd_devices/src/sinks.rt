//! Sinks: what takes the bytes of a report.

ghost use Rattle.std.specs.Prelude.{◌≡◌, ◌≢◌, ◌<◌, ◌≤◌, ℕ, Bool, true, false, List, Option, IfOk, IfErr, OnOk, OnErr, length, take};
ghost use Rattle.std.specs.IoError.{error_kind};
ghost use Rattle.std.specs.Io.KnownBytes.{Keeps, Appends};
ghost use Rattle.rd_devices.specs.Device.{TakesBeginning};

use super::faults::ScriptFault;
use std::io::{self, ErrorKind, Write};

/// Takes bytes, one or more of a slice at a time.
pub trait Sink {
    // The bytes that the sink has taken so far; None if they are not known.
    ghost contents: { Self → Option (List ℕ) };

    // Whether a call failed.
    ghost has_failed: { Self → Bool };

    /// Takes the first bytes of a slice, which must not be empty, and returns how many: at least
    /// one. Fails with `Write` if it can take none, and must not be called again after that.
    fn take_some(&mut self, given: &[u8]) -> Result<usize, ScriptFault>
        requires working { has_failed self.old ≡ false }
        requires some { 0 < length given.now }
        ensures count { IfOk result (λ n. (0 < n) × (n ≤ length given.now)) }
        ensures takes { IfOk result (λ n. Appends (contents self.old) (contents self.new)
            (take n given.now)) }
        ensures keeps { OnErr result (Keeps (contents self.old) (contents self.new)) }
        ensures fault { IfErr result (λ fault. fault ≡ ScriptFault.Write) }
        ensures works { OnOk result (has_failed self.new ≡ false) }
        ensures fails { OnErr result (has_failed self.new ≡ true) };
}

/// Writes the whole of a text to a sink, in as few calls as the sink needs. Fails with `Write` if
/// the sink fails; it has then taken a beginning of the text. The sink must not have failed before.
pub fn write_all<K: Sink>(writer: &mut K, text: &[u8]) -> Result<(), ScriptFault>
    requires { K.has_failed writer.old ≡ false }
    ensures ok { OnOk result (Appends (K.contents writer.old) (K.contents writer.new) text.now) }
    ensures err { OnErr result (TakesBeginning (K.contents writer.old)
        (K.contents writer.new) text.now) }
    ensures fault { IfErr result (λ fault. fault ≡ ScriptFault.Write) }
    ensures works { OnOk result (K.has_failed writer.new ≡ false) }
    ensures fails { OnErr result (K.has_failed writer.new ≡ true) }
{
    let mut done = 0;
    while done < text.len() {
        done += writer.take_some(&text[done..])?;
    }
    Ok(())
}

/// A sink over a writer, which should have no buffer that is flushed later.
#[derive(Drop)]
pub struct WriteSink<W> {
    /// The writer.
    inner: W,
    /// Whether a call failed.
    failed: bool,
}

impl<W: Write> WriteSink<W> {
    /// Returns a sink that writes everything to the writer.
    pub fn new(inner: W) -> Self
        ensures contents { ⟦<WriteSink<W> as Sink>⟧.contents result ≡ W.contents inner }
        ensures works { ⟦<WriteSink<W> as Sink>⟧.has_failed result ≡ false }
    {
        WriteSink {
            inner,
            failed: false,
        }
    }
}

impl<W: Write> Sink for WriteSink<W> {
    ghost contents = { λ s. W.contents s.inner };

    ghost has_failed = { λ s. s.failed };

    /// Writes the first bytes of a slice to the writer, and returns how many. Fails with `Write` if
    /// the writer fails or takes none.
    fn take_some(&mut self, given: &[u8]) -> Result<usize, ScriptFault> {
        let taken = write_some(&mut self.inner, given);
        self.failed = taken.is_err();
        match taken {
            Ok(count) => Ok(count),
            Err(_) => Err(ScriptFault::Write),
        }
    }
}

/// Offers the writer a slice, which must not be empty, and returns how many of its first bytes the
/// writer took: at least one. Fails if the writer fails or takes none; it has then taken nothing. A
/// write that a signal interrupts is made again, and is no fault; after 2^64 - 1 interruptions the
/// call fails, though the writer did not.
fn write_some<W: Write>(writer: &mut W, given: &[u8]) -> io::Result<usize>
    requires some { 0 < length given.now }
    ensures count { IfOk result (λ n. (0 < n) × (n ≤ length given.now)) }
    ensures ok { IfOk result (λ n. Appends (W.contents writer.old) (W.contents writer.new)
        (take n given.now)) }
    ensures err { OnErr result (Keeps (W.contents writer.old) (W.contents writer.new)) }
    ensures retried { IfErr result (λ error. error_kind error ≢ ErrorKind.Interrupted) }
{
    for _ in 0..u64::MAX {
        match writer.write(given) {
            Ok(0) => return Err(io::Error::from(ErrorKind::WriteZero)),
            Ok(count) => return Ok(count),
            Err(error) if error.kind() == ErrorKind::Interrupted => {}
            Err(error) => return Err(error),
        }
    }
    Err(io::Error::from(ErrorKind::Other))
}
