//! Which sessions of clients hear of what comes from a server.
ghost use Rattle.std.specs.Prelude.{◌≡◌};
ghost use Rattle.client_session.specs.Hearers as spec;

use chat_change::Record;
use chat_query::Facts;
use irc_caps::Recipients;

fn is_of(account: &[u8], network: &[u8], facts: &Facts) -> bool
    ensures { result ≡ spec.is_of account.now network.now facts.now }
{
    facts.account.as_bytes() == account && facts.network.as_bytes() == network
}

/// Whether a session hears a message as it comes: it is of the account and the network, and, unless it holds
/// `echo-message` (IRCv3 echo-message), the message isn't its own, which is one from the present nick.
pub fn hears_message(is_own: bool, message: &Record, facts: &Facts) -> bool
    ensures { result ≡ spec.hears_message is_own message.now facts.now }
{
    let buffer = message.buffer();
    is_of(buffer.account(), buffer.network(), facts) && (facts.caps.echo_message || !is_own)
}

fn is_recipient(to: Recipients, facts: &Facts) -> bool
    ensures { result ≡ spec.is_recipient to facts.now }
{
    match to {
        Recipients::All => true,
        Recipients::Holding(capability) => facts.caps.holds(capability),
    }
}

/// Whether a line that is passed on goes to a session: it is of the account and the network, and one of the recipients.
pub fn hears_line(account: &[u8], network: &[u8], to: Recipients, facts: &Facts) -> bool
    ensures { result ≡ spec.hears_line account.now network.now to facts.now }
{
    is_of(account, network, facts) && is_recipient(to, facts)
}
