//! Bytes that were read from a reader in one call and are given one at a time.

ghost use Rattle.std.specs.Prelude.{◌≡◌, ◌≢◌, ◌≤◌, ◌<◌, ◌↔◌, [], Some, IsTrue, length, take, IfOk, IfErr, OnOk, OnErr};
ghost use Rattle.std.specs.IoError.{error_kind};
ghost use Rattle.std.specs.Io.KnownBytes.{Keeps, Consumes, IsAtEnd};
ghost use Rattle.rd_devices.specs.Device.{GivesByte};
ghost use Rattle.rd_devices.specs.declared.portions.TheConstants.{MOST_PORTION_BYTES};

use super::faults::ScriptFault;
use std::io::{self, ErrorKind, Read};

/// How many bytes a reader is asked for at once.
pub const MOST_PORTION_BYTES: usize = 4096;

/// The bytes of one read.
#[derive(Drop)]
pub struct Portion {
    /// The bytes that were read, and after them bytes of no meaning.
    bytes: [u8; MOST_PORTION_BYTES],
    /// How many of the read bytes were given.
    given: usize,
    /// How many bytes were read.
    filled: usize,
    ghost ordered: { given ≤ filled },
    ghost within: { filled ≤ MOST_PORTION_BYTES },
}

impl Portion {
    ghost use Rattle.rd_devices.specs.Portions.{pending_bytes};

    /// Returns a portion with no byte.
    pub fn new() -> Portion
        ensures { pending_bytes result ≡ [] }
    {
        Portion {
            bytes: [0; MOST_PORTION_BYTES],
            given: 0,
            filled: 0,
        }
    }

    /// Returns whether all bytes of the portion were given.
    pub fn is_empty(&self) -> bool
        ensures { IsTrue result ↔ (pending_bytes self.now ≡ []) }
    {
        self.given == self.filled
    }

    /// Gives the portion's next byte, or none after the last one. A byte is given once.
    pub fn next(&mut self) -> Option<u8>
        ensures { GivesByte (Some (pending_bytes self.old)) (Some (pending_bytes self.new)) result }
    {
        if self.given == self.filled {
            return None;
        }
        let byte = self.bytes[self.given];
        self.given += 1;
        Some(byte)
    }

    /// Replaces the portion's bytes by the next ones of the reader, none only at the reader's end.
    /// Fails with `Read` if the reader fails; it has then given none, and the portion has no byte.
    pub fn fill<R: Read>(&mut self, reader: &mut R) -> Result<(), ScriptFault>
        ensures ok { OnOk result (Consumes (R.remaining reader.old) (R.remaining reader.new)
            (pending_bytes self.new)) }
        ensures end { OnOk result (pending_bytes self.new ≡ [] → IsAtEnd (R.remaining reader.new)) }
        ensures err { OnErr result (Keeps (R.remaining reader.old) (R.remaining reader.new)) }
        ensures none { OnErr result (pending_bytes self.new ≡ []) }
        ensures fault { IfErr result (λ fault. fault ≡ ScriptFault.Read) }
    {
        self.given = 0;
        self.filled = 0;
        match read_some(reader, &mut self.bytes) {
            Ok(count) => {
                self.filled = count;
                Ok(())
            }
            Err(_) => Err(ScriptFault::Read),
        }
    }
}

/// Reads the next bytes of a reader into a slice, which must not be empty, and returns how many
/// they are: none only at the reader's end. Fails if the reader fails, and has then read nothing. A
/// read that a signal interrupts is made again, and is no fault; after 2^64 - 1 interruptions the
/// call fails, though the reader did not.
fn read_some<R: Read>(reader: &mut R, bytes: &mut [u8]) -> io::Result<usize>
    requires room { 0 < length bytes.old }
    ensures len { length bytes.new ≡ length bytes.old }
    ensures count { IfOk result (λ n. n ≤ length bytes.new) }
    ensures ok { IfOk result (λ n. Consumes (R.remaining reader.old) (R.remaining reader.new)
        (take n bytes.new)) }
    ensures end { IfOk result (λ n. n ≡ 0 → IsAtEnd (R.remaining reader.new)) }
    ensures err { OnErr result (Keeps (R.remaining reader.old) (R.remaining reader.new)) }
    ensures retried { IfErr result (λ error. error_kind error ≢ ErrorKind.Interrupted) }
{
    for _ in 0..u64::MAX {
        match reader.read(bytes) {
            Ok(count) => return Ok(count),
            Err(error) if error.kind() == ErrorKind::Interrupted => {}
            Err(error) => return Err(error),
        }
    }
    Err(io::Error::from(ErrorKind::Other))
}
