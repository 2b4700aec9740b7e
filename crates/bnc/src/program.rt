//! What the program does by its words, and how it ends.
ghost use Rattle.std.specs.Prelude.{◌≡◌, [], map, string_bytes};
ghost use Rattle.std.specs.Fn.{FnOnceReturnsAt};
ghost use Rattle.std.specs.Io.Buffered.{writer_buffer, writer_inner, writer_contents};
ghost use Rattle.bnc.specs.Words.{spelled_command};
ghost use Rattle.bnc.specs.Program.{EndsAs};
ghost use Rattle.bnc.specs.Serving.{ServesPath};
ghost use Rattle.bnc.specs.Replaying.{Replays, AsksForScript};

use crate::ending::End;
use crate::replaying::replay_script;
use crate::serving::serve_file;
use crate::words::{Command, command_in};
use bnc_work::WorkEnd;
use node_config::Config;
use node_events::ServeFault;
use std::alloc::Global;
use std::io;
use std::io::{BufWriter, Read, Write};

/// Does what the words ask for. `read` reads a file, and `serve` runs a node by a configuration.
pub(crate) fn end_of_program<'a, In, Out, Files, Node>(
    alloc: Global,
    words: &'a [String],
    input: &mut In,
    output: &mut BufWriter<Out>,
    read: Files,
    serve: Node,
) -> Result<(), End<'a>>
where
    In: Read,
    Out: Write + Drop,
    Files: FnOnce(&str) -> io::Result<Vec<u8>>,
    Node: FnOnce(&Config) -> Result<Vec<WorkEnd>, ServeFault>,
    requires empty { writer_buffer output.old ≡ [] }
    requires reads { Files.IsAlwaysCallable read }
    requires serves { Node.IsAlwaysCallable serve }
    ensures ends { EndsAs
        (ServesPath (FnOnceReturnsAt Files.FnOnce read) (FnOnceReturnsAt Node.FnOnce serve))
        (Replays (In.remaining input.old) (In.remaining input.new)
        (Out.contents (writer_inner output.old)) (Out.contents (writer_inner output.new))
        (writer_contents Out.contents output.new))
        (spelled_command (map string_bytes words.now)) result }
    // What asks for no script, or for one of names that no node can have, reads nothing and writes nothing.
    ensures untouched { ¬ (AsksForScript (spelled_command (map string_bytes words.now)))
        → (input.new ≡ input.old) × (output.new ≡ output.old) }
{
    // Each branch returns, since the borrow checker doesn't join branches that move different values.
    match command_in(words) {
        None => return Err(End::Usage),
        Some(Command::Serve(path)) => return serve_file(alloc, path, read, serve),
        Some(Command::Replay(names)) => return replay_script(alloc, input, output, names),
    }
}
