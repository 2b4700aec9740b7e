//! The user that a line names (RFC 2812, section 3.1.3).
ghost use Rattle.std.specs.Prelude.{◌≡◌, map};
ghost use Rattle.std.specs.Option.{option_copied};
ghost use Rattle.client_session.specs.Naming as spec;
ghost use Rattle.client_session.specs.Registration.{account_of, network_of};

use crate::command::{ClientCommand, command_of};
use crate::registration::user_name;
use crate::stage::Waiting;
use byte_text::find_byte;
use irc_line::{TagLimit, read_line};

/// The account and the network of `account/network`, cut at the first `/`.
pub fn split_user(user: &[u8]) -> (&[u8], &[u8])
    ensures account { result.0.now ≡ account_of user.now }
    ensures network { result.1.now ≡ network_of user.now }
{
    match find_byte(user, b'/') {
        Some(at) => (&user[..at], &user[at + 1..]),
        None => (user, &user[user.len()..]),
    }
}

// The user that a line of that command names.
fn user_of<'a>(command: ClientCommand, parameters: &[&'a [u8]]) -> Option<&'a [u8]>
    ensures { option_copied result ≡ spec.user_of command (map (λ p. p.now) parameters.now) }
{
    match command {
        ClientCommand::User => user_name(parameters),
        _ => None,
    }
}

/// The user that the line names, where it is USER.
pub fn user_in(bytes: &[u8]) -> Option<&[u8]>
    ensures { option_copied result ≡ spec.user_in bytes.now }
{
    match read_line(bytes, TagLimit::Client) {
        Err(_) => None,
        Ok(line) => user_of(command_of(line.command()), line.parameters()),
    }
}

impl Waiting {
    // The user that was named last.
    fn last_user(&self) -> Option<&[u8]>
        ensures { option_copied result ≡ self.now.user }
    {
        match &self.user {
            None => None,
            Some(user) => Some(user.as_bytes()),
        }
    }

    /// The user that was named last, once the line is heard.
    pub(crate) fn user_after<'a>(&'a self, bytes: &'a [u8]) -> Option<&'a [u8]>
        ensures { option_copied result ≡ spec.last_user self.now.user (spec.user_in bytes.now) }
    {
        match user_in(bytes) {
            None => self.last_user(),
            Some(user) => Some(user),
        }
    }
}
