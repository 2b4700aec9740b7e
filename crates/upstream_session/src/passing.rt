//! Lines of a server that are passed on, and do nothing else.
ghost use Rattle.std.specs.Prelude.{◌≡◌};
ghost use Rattle.upstream_session.specs.Passing as spec;

use crate::command::{ServerCommand, command_of};
use crate::refusal::is_refusing;
use irc_line::{TagLimit, read_line};

fn is_passed(command: ServerCommand) -> bool
    ensures { result ≡ spec.is_passed command }
{
    matches!(command, ServerCommand::Tagmsg | ServerCommand::Other)
}

fn is_passed_command(word: &[u8]) -> bool
    ensures { result ≡ spec.is_passed_command word.now }
{
    !is_refusing(false, word) && is_passed(command_of(word))
}

/// Whether a line of a server is only passed on: its session stays as it is, and takes no other notice of it. So is TAGMSG, and
/// each line whose command no session knows. The line stands without its ending; one that can't be read is dropped, and not
/// passed on.
pub fn is_passed_on(bytes: &[u8]) -> bool
    ensures { result ≡ spec.is_passed_on bytes.now }
{
    match read_line(bytes, TagLimit::Server) {
        Err(_) => false,
        Ok(line) => is_passed_command(line.command()),
    }
}
