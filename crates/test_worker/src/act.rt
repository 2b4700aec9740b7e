//! What happens at a port.

/// What happens.
#[derive(Clone, Copy)]
pub enum PlayedAct<'a> {
    /// So many milliseconds pass.
    Wait(u64),
    /// The wall clock is set ahead by so many milliseconds.
    Ahead(u64),
    /// The wall clock is set back by so many milliseconds.
    Back(u64),
    /// The clocks can't be read any more.
    Stop,
    /// The client at that place is asked to leave.
    Leave(usize),
    /// What the other worker told next comes.
    Mail,
    /// So many of the next acts happen at once.
    Together(usize),
    /// Nothing happens.
    Pause,
    /// The port fails.
    Fail,
    /// A client comes by that connection, to whom so many bytes may be owed.
    Client(usize, usize),
    /// A node comes by that connection.
    Peer(usize),
    /// The connection that was begun under that number is there.
    Opens(usize),
    /// The connection that was begun under that number can't be made.
    Refused(usize),
    /// The other end of that connection does something.
    To(usize, FarTurn<'a>),
}

/// What the other end of a connection does.
#[derive(Clone, Copy)]
pub enum FarTurn<'a> {
    /// A line comes.
    Line(&'a str),
    /// A line comes so many times, with whatever comes next.
    Many(usize, &'a str),
    /// Bytes come that end no line.
    Part(&'a str),
    /// It sends nothing more.
    Ends,
    /// It is gone.
    Gone,
    /// It takes so many bytes at once, and so many in all.
    Takes(usize, usize),
    /// What it sends comes so many bytes at once.
    Gives(usize),
}

/// A word, and what stands behind the space after it.
pub fn cut(text: &str) -> (&str, &str) {
    text.split_once(" ").unwrap_or((text, ""))
}

/// A number; None where it isn't one.
pub fn number_in(text: &str) -> Option<usize> {
    text.parse::<usize>().ok()
}

fn takes_in(text: &str) -> Option<FarTurn<'_>> {
    match text.split_once(" of ") {
        Some((at_once, most)) => Some(FarTurn::Takes(number_in(at_once)?, number_in(most)?)),
        None => Some(FarTurn::Takes(number_in(text)?, usize::MAX)),
    }
}

fn many_in(text: &str) -> Option<FarTurn<'_>> {
    let (count, line) = cut(text);
    Some(FarTurn::Many(number_in(count)?, line))
}

// The turn that a word and the text behind it spell.
fn turn_in<'a>(word: &str, rest: &'a str) -> Option<FarTurn<'a>> {
    match word {
        "<" => Some(FarTurn::Line(rest)),
        "+" => Some(FarTurn::Many(1, rest)),
        "many" => many_in(rest),
        "." => Some(FarTurn::Part(rest)),
        "ends" => Some(FarTurn::Ends),
        "gone" => Some(FarTurn::Gone),
        "takes" => takes_in(rest),
        "gives" => Some(FarTurn::Gives(number_in(rest)?)),
        _ => None,
    }
}

// What happens to a connection.
fn act_at(number: usize, text: &str) -> Option<PlayedAct<'_>> {
    let (word, rest) = cut(text);
    match word {
        "client" => Some(PlayedAct::Client(number, number_in(rest)?)),
        "peer" => Some(PlayedAct::Peer(number)),
        "opens" => Some(PlayedAct::Opens(number)),
        "refused" => Some(PlayedAct::Refused(number)),
        _ => Some(PlayedAct::To(number, turn_in(word, rest)?)),
    }
}

// An act that has a number behind its word.
fn numbered_act(word: &str, number: usize) -> Option<PlayedAct<'static>> {
    match word {
        "wait" => Some(PlayedAct::Wait(number as u64)),
        "ahead" => Some(PlayedAct::Ahead(number as u64)),
        "back" => Some(PlayedAct::Back(number as u64)),
        "leave" => Some(PlayedAct::Leave(number)),
        "together" => Some(PlayedAct::Together(number)),
        _ => None,
    }
}

/// The act that a line of a case spells.
pub fn act_in(text: &str) -> Option<PlayedAct<'_>> {
    let (word, rest) = cut(text);
    match word {
        "stop" => Some(PlayedAct::Stop),
        "fail" => Some(PlayedAct::Fail),
        "mail" => Some(PlayedAct::Mail),
        "pause" => Some(PlayedAct::Pause),
        _ => match number_in(word) {
            Some(number) => act_at(number, rest),
            None => numbered_act(word, number_in(rest)?),
        },
    }
}
