//! Texts for whoever wrote the script, with the writer's fault as one of the script.
ghost use Rattle.std.specs.Prelude.{◌≡◌, IfErr};
ghost use Rattle.byte_text.specs.Writes.{Writes};
ghost use Rattle.change_lines.specs.declared.fault.ChangeLineFault.TheVariants as line;
ghost use Rattle.bnc_server.specs.Script as spec;
ghost use Rattle.bnc_server.specs.World.{refusal_of};

use crate::fault::ReplayFault;
use byte_text::put;
use gossip_link::LinkFault;
use std::io::Write;

/// Writes a text.
pub(crate) fn put_text<W: Write>(writer: &mut W, text: &[u8]) -> Result<(), ReplayFault>
    ensures text { Writes W.contents writer.old writer.new result text.now }
    ensures fault { IfErr result (λ fault. fault ≡ ReplayFault.Write) }
{
    match put(writer, text) {
        Ok(()) => Ok(()),
        Err(_) => Err(ReplayFault::Write),
    }
}

/// Tells how an acknowledgement was refused.
pub(crate) fn put_link_fault<W: Write>(writer: &mut W, fault: LinkFault) -> Result<(), ReplayFault>
    ensures text { Writes W.contents writer.old writer.new result (refusal_of fault) }
    ensures fault { IfErr result (λ fault. fault ≡ ReplayFault.Write) }
{
    match fault {
        LinkFault::WrongLife => put_text(writer, b"% WrongLife\r\n"),
        _ => put_text(writer, b"% AckTooHigh\r\n"),
    }
}

/// Answers a line of another form.
pub(crate) fn put_bad_form<W: Write>(writer: &mut W) -> Result<(), ReplayFault>
    ensures text { Writes W.contents writer.old writer.new result
        (spec.refusal_text line.BadForm) }
    ensures fault { IfErr result (λ fault. fault ≡ ReplayFault.Write) }
{
    put_text(writer, b"% BadForm\r\n")
}

/// Answers a change line with a field that is refused.
pub(crate) fn put_bad_field<W: Write>(writer: &mut W) -> Result<(), ReplayFault>
    ensures text { Writes W.contents writer.old writer.new result
        (spec.refusal_text line.BadField) }
    ensures fault { IfErr result (λ fault. fault ≡ ReplayFault.Write) }
{
    put_text(writer, b"% BadField\r\n")
}
