//! Sessions with servers, played line by line:
//!
//!     == new|up|echo|tags|redact|last|odd: name of the case
//!     < line of the server
//!     > line of a client
//!     ? tells how the session stands
//!     = line of the server, of which only the channel is printed that the session itself joins by it
//!     * tells the words by which the server refused the session
//!     ! starts the session
//!     --
//!     `send`, `put`, `relay` and `close` with what they carry, `joins`, `refused`, and how the session stands
//!
//! Each line comes at the moment 1000. A session is of the account `demo` with the network `net`, as `al`, in the channels
//! #a and #b, of the node n1 in its incarnation 7. It is new, or the server has welcomed it (`up`), having acknowledged
//! `echo-message` (`echo`), `message-tags` (`tags`) or `draft/message-redaction` (`redact`); one has used up its serial
//! numbers (`last`), and one is of a node whose name can't stand in an id (`odd`).
use crate::telling::{tell_change, tell_row, without_ending};
use anyhow::Error;
use byte_text::Text;
use chat_change::Moment;
use std::alloc::{AllocError, Global};
use std::io::Write;
use upstream_session::{Channels, Recipients, SessionConfig, UpEffect, Upstream};

const LAST_SERIAL: u64 = 18_446_744_073_709_551_615;

/// The moment 1000.
fn moment() -> Result<Moment, AllocError> {
    Moment::from_ms(1000).ok_or(AllocError)
}

fn channels_of(alloc: Global) -> Result<Channels, Error> {
    let mut channels = Vec::new(alloc);
    channels.push(Text::new(alloc, b"#a")?)?;
    channels.push(Text::new(alloc, b"#b")?)?;
    Ok(Channels::of(channels))
}

fn config_of(alloc: Global) -> Result<SessionConfig, Error> {
    let account = Text::new(alloc, b"demo")?;
    let network = Text::new(alloc, b"net")?;
    let nick = Text::new(alloc, b"al")?;
    let user = Text::new(alloc, b"alan")?;
    let channels = channels_of(alloc)?;
    Ok(SessionConfig {
        account,
        network,
        nick,
        user,
        channels,
    })
}

/// The session of a setting, before any line came.
fn begun(alloc: Global, setting: &str) -> Result<Upstream, Error> {
    let (node, first_serial) = match setting {
        "last" => (b"n1".as_slice(), LAST_SERIAL),
        "odd" => (b"n 1".as_slice(), 1),
        _ => (b"n1".as_slice(), 1),
    };
    let node = Text::new(alloc, node)?;
    let config = config_of(alloc)?;
    Ok(Upstream::new(alloc, config, node, 7, first_serial))
}

// Brings a session to where a setting has it.
fn step_to(alloc: Global, session: &mut Upstream, setting: &str) -> Result<(), Error> {
    let lines = match setting {
        "new" => "",
        "echo" => "CAP al ACK :echo-message\n:irc.example 001 al :Welcome",
        "tags" => "CAP al ACK :message-tags\n:irc.example 001 al :Welcome",
        "redact" => "CAP al ACK :draft/message-redaction\n:irc.example 001 al :Welcome",
        _ => ":irc.example 001 al :Welcome",
    };
    for line in lines.lines() {
        let _ = step(alloc, session, "<", line)?;
    }
    Ok(())
}

fn tell_relayed(out: &mut Vec<u8>, line: &[u8], to: Recipients) -> Result<(), AllocError> {
    match to {
        Recipients::All => tell_row(out, b"relay ", line),
        Recipients::Holding(capability) => {
            out.extend_from_slice(b"relay to ")?;
            out.extend_from_slice(capability.name())?;
            tell_row(out, b" ", line)
        }
    }
}

// Tells an effect in a row.
fn tell_effect(alloc: Global, out: &mut Vec<u8>, effect: &UpEffect) -> Result<(), Error> {
    match effect {
        UpEffect::Send(line) => tell_row(out, b"send ", without_ending(line.as_bytes()))?,
        UpEffect::Put(change) => tell_change(alloc, out, change)?,
        UpEffect::Relay(line, to) => tell_relayed(out, without_ending(line.as_bytes()), *to)?,
        UpEffect::Close => tell_row(out, b"close", b"")?,
    }
    Ok(())
}

// Tells the effects of a line, and gives their list back, so that later lines are answered in its room.
fn tell_all(
    alloc: Global,
    out: &mut Vec<u8>,
    session: &mut Upstream,
    effects: Vec<UpEffect>,
) -> Result<(), Error> {
    for effect in &effects {
        tell_effect(alloc, out, effect)?;
    }
    session.recycle(effects);
    Ok(())
}

// Tells whether the network is up, whether its server takes REDACT, the nick, the channels and the serial number.
fn tell_session(out: &mut Vec<u8>, session: &Upstream) -> Result<(), Error> {
    let entry = session.entry();
    let standing: &[u8] = match (entry.is_up(), entry.takes_redact()) {
        (true, true) => b"up redact ",
        (true, false) => b"up ",
        (false, true) => b"down redact ",
        (false, false) => b"down ",
    };
    out.extend_from_slice(standing)?;
    out.extend_from_slice(entry.nick())?;
    for channel in entry.channels() {
        out.push(b' ')?;
        out.extend_from_slice(channel.as_bytes())?;
    }
    Ok(write!(out, " {}\n", session.serial())?)
}

fn step(
    alloc: Global,
    session: &mut Upstream,
    mark: &str,
    line: &str,
) -> Result<Vec<UpEffect>, Error> {
    let bytes = line.as_bytes();
    let now = moment()?;
    let effects = match mark {
        "<" => session.step(alloc, bytes, now),
        ">" => session.say(alloc, bytes, now),
        _ => session.start(alloc),
    };
    Ok(effects?)
}

// A call that is refused leaves the session as it was: it is made again.
fn step_again(
    alloc: Global,
    session: &mut Upstream,
    mark: &str,
    line: &str,
) -> Result<Vec<UpEffect>, Error> {
    if let Ok(effects) = step(alloc, session, mark, line) {
        return Ok(effects);
    }
    step(alloc, session, mark, line)
}

fn play_line(
    alloc: Global,
    session: &mut Upstream,
    text: &str,
    out: &mut Vec<u8>,
) -> Result<(), Error> {
    let (mark, line) = text.split_once(" ").unwrap_or((text, ""));
    match mark {
        "?" => return tell_session(out, session),
        "=" => {
            let channel = session.joined(line.as_bytes()).unwrap_or(b"nothing");
            return Ok(tell_row(out, b"joins ", channel)?);
        }
        "*" => return Ok(tell_row(out, b"refused ", session.refusal())?),
        "<" | ">" | "!" => {}
        _ => return Ok(tell_row(out, b"no line of a script", b"")?),
    }
    let effects = step_again(alloc, session, mark, line)?;
    tell_all(alloc, out, session, effects)
}

fn play_lines(
    alloc: Global,
    session: &mut Upstream,
    setting: &str,
    script: &str,
    out: &mut Vec<u8>,
) -> Result<(), Error> {
    step_to(alloc, session, setting)?;
    for line in script.split("\n") {
        play_line(alloc, session, line, out)?;
    }
    Ok(())
}

/// Prints what the lines of a script do, one after the other.
pub fn play(alloc: Global, setting: &str, script: &str, out: &mut Vec<u8>) -> Result<(), Error> {
    let mut session = begun(alloc, setting)?;
    play_lines(alloc, &mut session, setting, script, out)
}
