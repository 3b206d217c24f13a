//! Sources: what gives a script's bytes.

ghost use Rattle.std.specs.Prelude.{◌≡◌, ℕ, Bool, true, false, List, Option, IfOk, IfErr, OnOk, OnErr};
ghost use Rattle.std.specs.Io.KnownBytes.{Keeps, prepend_known};
ghost use Rattle.rd_devices.specs.Device.{GivesByte};
ghost use Rattle.rd_devices.specs.Portions.{pending_bytes};

use super::faults::ScriptFault;
use super::portions::Portion;
use std::io::Read;

/// Gives bytes, one at a time.
pub trait Source {
    // The bytes that the source can still give; None if they are not known.
    ghost bytes: { Self → Option (List ℕ) };

    // Whether a call failed.
    ghost has_failed: { Self → Bool };

    /// Gives the next byte, or none at the end. Fails with `Read` if the source fails, and must not
    /// be called again after that.
    fn next_byte(&mut self) -> Result<Option<u8>, ScriptFault>
        requires { has_failed self.old ≡ false }
        ensures gives { IfOk result (GivesByte (bytes self.old) (bytes self.new)) }
        ensures keeps { OnErr result (Keeps (bytes self.old) (bytes self.new)) }
        ensures fault { IfErr result (λ fault. fault ≡ ScriptFault.Read) }
        ensures works { OnOk result (has_failed self.new ≡ false) }
        ensures fails { OnErr result (has_failed self.new ≡ true) };
}

/// A source over a reader, which is read in portions.
#[derive(Drop)]
pub struct ReadSource<R> {
    /// The reader.
    inner: R,
    /// The bytes that were read last, and not all given yet.
    portion: Portion,
    /// Whether a call failed.
    failed: bool,
}

impl<R: Read> ReadSource<R> {
    /// Returns a source of the bytes that the reader gives.
    pub fn new(inner: R) -> Self
        ensures bytes { ⟦<ReadSource<R> as Source>⟧.bytes result ≡ R.remaining inner }
        ensures works { ⟦<ReadSource<R> as Source>⟧.has_failed result ≡ false }
    {
        ReadSource {
            inner,
            portion: Portion::new(),
            failed: false,
        }
    }
}

impl<R: Read> Source for ReadSource<R> {
    ghost bytes = { λ s. prepend_known (pending_bytes s.portion) (R.remaining s.inner) };

    ghost has_failed = { λ s. s.failed };

    /// Gives the reader's next byte, or none at its end. Reads from the reader only if no byte is
    /// left of the portion. Fails with `Read` if the reader fails.
    fn next_byte(&mut self) -> Result<Option<u8>, ScriptFault> {
        if self.portion.is_empty() {
            let filled = self.portion.fill(&mut self.inner);
            self.failed = filled.is_err();
            filled?;
        }
        Ok(self.portion.next())
    }
}
