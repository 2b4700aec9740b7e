//! `bnc replay`: the names it takes, and the script that it answers.
ghost use Rattle.std.specs.Prelude.{◌≡◌, ◌≢◌, [], None, OnOk, IfErr};
ghost use Rattle.std.specs.Io.Buffered.{writer_buffer, writer_inner, writer_contents};
ghost use Rattle.bnc.specs.Words.{names_of};
ghost use Rattle.bnc.specs.Replaying.{names_fault, end_of_refusal, ReplaysLawful, Replays};

use crate::ending::End;
use crate::words::ReplayNames;
use bnc_server::replay;
use chat_change::Buffer;
use std::alloc::Global;
use std::io::{BufWriter, Read, Write};

/// Refuses names that no node can have.
fn check_names(alloc: Global, names: ReplayNames<'_>) -> Result<(), End<'static>>
    ensures lawful { OnOk result (names_fault (names_of names.entry) ≡ None) }
    ensures refused { IfErr result (λ end. end ≡ end_of_refusal (names_of names.entry)) }
{
    Buffer::new(alloc, names.account, names.network, names.nick)?;
    Ok(())
}

/// Answers a script, which is read to its end where all is done. All that the script prints has then left the buffer.
fn answer<In: Read, Out: Write + Drop>(
    alloc: Global,
    reader: &mut In,
    writer: &mut BufWriter<Out>,
    names: ReplayNames<'_>,
) -> Result<(), End<'static>>
    requires names { names_fault (names_of names) ≡ None }
    requires empty { writer_buffer writer.old ≡ [] }
    ensures { ReplaysLawful (In.remaining reader.old) (In.remaining reader.new)
        (Out.contents (writer_inner writer.old)) (Out.contents (writer_inner writer.new))
        (writer_contents Out.contents writer.new) (names_of names.entry) result }
{
    let answered = replay(
        alloc,
        reader,
        writer,
        names.account,
        names.network,
        names.nick,
    );
    let flushed = writer.flush();
    answered?;
    match flushed {
        Ok(()) => Ok(()),
        Err(_) => Err(End::Device),
    }
}

/// Answers a script for those names, if a node can have them.
pub(crate) fn replay_script<In: Read, Out: Write + Drop>(
    alloc: Global,
    reader: &mut In,
    writer: &mut BufWriter<Out>,
    names: ReplayNames<'_>,
) -> Result<(), End<'static>>
    requires empty { writer_buffer writer.old ≡ [] }
    ensures replays { Replays (In.remaining reader.old) (In.remaining reader.new)
        (Out.contents (writer_inner writer.old)) (Out.contents (writer_inner writer.new))
        (writer_contents Out.contents writer.new) (names_of names.entry) result }
    ensures untouched { names_fault (names_of names.entry) ≢ None
        → (reader.new ≡ reader.old) × (writer.new ≡ writer.old) }
{
    check_names(alloc, names)?;
    answer(alloc, reader, writer, names)
}
