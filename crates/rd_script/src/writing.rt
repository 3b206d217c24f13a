//! Writing the line of one answer to a sink.

ghost use Rattle.std.specs.Prelude.{◌≡◌, IfErr, OnOk, OnErr, false, true};
ghost use Rattle.std.specs.Io.KnownBytes.{Appends};
ghost use Rattle.rd_text.specs.Replies.{answer_text};
ghost use Rattle.rd_devices.specs.Device.{TakesBeginning};

use rd_devices::{ScriptFault, Sink, write_all};
use rd_text::{LineAnswer, Text, set_answer};

/// Writes the line of an answer, in as few calls as the writer needs. The writer must not have
/// failed before.
///
/// # Errors
///
/// `Write` if the writer failed or took nothing; it has then taken a beginning of the line.
pub fn write_answer<K: Sink>(writer: &mut K, answer: &LineAnswer) -> Result<(), ScriptFault>
    requires { K.has_failed writer.old ≡ false }
    ensures ok { OnOk result (Appends (K.contents writer.old) (K.contents writer.new)
        (answer_text answer.now)) }
    ensures err { OnErr result (TakesBeginning (K.contents writer.old) (K.contents writer.new)
        (answer_text answer.now)) }
    ensures fault { IfErr result (λ fault. fault ≡ ScriptFault.Write) }
    ensures works { OnOk result (K.has_failed writer.new ≡ false) }
    ensures fails { OnErr result (K.has_failed writer.new ≡ true) }
{
    let mut text = Text::new();
    set_answer(&mut text, answer);
    write_all(writer, text.as_slice())
}
