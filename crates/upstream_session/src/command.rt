//! The commands of a server that a session tells apart.
ghost use Rattle.std.specs.Prelude.{◌≡◌};
ghost use Rattle.upstream_session.specs.Command as spec;

#[derive(Clone, Copy)]
pub(crate) enum ServerCommand {
    Cap,
    Welcome,
    Greeting,
    NickInUse,
    Ping,
    Nick,
    Join,
    Part,
    Kick,
    Error,
    Privmsg,
    Notice,
    Redact,
    Tagmsg,
    Other,
}

fn is_greeting(word: &[u8]) -> bool
    ensures { result ≡ spec.is_greeting word.now }
{
    word.eq_ignore_ascii_case(b"002")
        || word.eq_ignore_ascii_case(b"003")
        || word.eq_ignore_ascii_case(b"004")
        || word.eq_ignore_ascii_case(b"005")
}

// The command of a word that is about the connection itself: its registration, PING or ERROR. Any other
// is of no kind of its own.
#[tactic(auto, unfolding(crate::specs::Command::connection_command_of))]
fn connection_command_of(word: &[u8]) -> ServerCommand
    ensures { result ≡ spec.connection_command_of word.now }
{
    if word.eq_ignore_ascii_case(b"PING") {
        ServerCommand::Ping
    } else if word.eq_ignore_ascii_case(b"CAP") {
        ServerCommand::Cap
    } else if word.eq_ignore_ascii_case(b"001") {
        ServerCommand::Welcome
    } else if is_greeting(word) {
        ServerCommand::Greeting
    } else if word.eq_ignore_ascii_case(b"433") {
        ServerCommand::NickInUse
    } else if word.eq_ignore_ascii_case(b"ERROR") {
        ServerCommand::Error
    } else {
        ServerCommand::Other
    }
}

// The command of a word by which users come, go or are renamed, or of one of [`connection_command_of`].
#[tactic(auto, unfolding(crate::specs::Command::user_command_of))]
fn user_command_of(word: &[u8]) -> ServerCommand
    ensures { result ≡ spec.user_command_of word.now }
{
    if word.eq_ignore_ascii_case(b"JOIN") {
        ServerCommand::Join
    } else if word.eq_ignore_ascii_case(b"PART") {
        ServerCommand::Part
    } else if word.eq_ignore_ascii_case(b"KICK") {
        ServerCommand::Kick
    } else if word.eq_ignore_ascii_case(b"NICK") {
        ServerCommand::Nick
    } else {
        connection_command_of(word)
    }
}

/// The command of that word, which is compared without regard to case. Those of messages are looked for first.
pub(crate) fn command_of(word: &[u8]) -> ServerCommand
    ensures { result ≡ spec.command_of word.now }
{
    if word.eq_ignore_ascii_case(b"PRIVMSG") {
        ServerCommand::Privmsg
    } else if word.eq_ignore_ascii_case(b"NOTICE") {
        ServerCommand::Notice
    } else if word.eq_ignore_ascii_case(b"TAGMSG") {
        ServerCommand::Tagmsg
    } else if word.eq_ignore_ascii_case(b"REDACT") {
        ServerCommand::Redact
    } else {
        user_command_of(word)
    }
}
