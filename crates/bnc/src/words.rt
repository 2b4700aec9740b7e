//! What the words behind the program's name ask for.
ghost use Rattle.std.specs.Prelude.{◌≡◌, map, option_map, string_bytes};
ghost use Rattle.bnc.specs.Words.{spelled_command, serve_of, replay_of, names_of, value_of};

/// The three names behind the word `replay`.
#[derive(Clone, Copy)]
pub(crate) struct ReplayNames<'a> {
    pub(crate) account: &'a [u8],
    pub(crate) network: &'a [u8],
    pub(crate) nick: &'a [u8],
}

/// What the program is to do.
#[derive(Clone, Copy)]
pub(crate) enum Command<'a> {
    /// Answer the script on standard input, for those names.
    Replay(ReplayNames<'a>),
    /// Run a node by the configuration in that file.
    Serve(&'a str),
}

fn serve_in<'a>(word: &str, path: &'a str) -> Option<Command<'a>>
    ensures { option_map value_of result ≡ serve_of word.now path.now }
{
    if word.as_bytes() == b"serve".as_slice() {
        Some(Command::Serve(path))
    } else {
        None
    }
}

fn replay_in<'a>(word: &str, names: ReplayNames<'a>) -> Option<Command<'a>>
    ensures { option_map value_of result ≡ replay_of word.now (names_of names.entry) }
{
    if word.as_bytes() == b"replay".as_slice() {
        Some(Command::Replay(names))
    } else {
        None
    }
}

/// The command that the words spell, if they spell one.
pub(crate) fn command_in<'a>(words: &'a [String]) -> Option<Command<'a>>
    ensures { option_map value_of result ≡ spelled_command (map string_bytes words.now) }
{
    match words {
        [word, path] => serve_in(word.as_str(), path.as_str()),
        [word, account, network, nick] => {
            let names = ReplayNames {
                account: account.as_bytes(),
                network: network.as_bytes(),
                nick: nick.as_bytes(),
            };
            replay_in(word.as_str(), names)
        }
        _ => None,
    }
}
