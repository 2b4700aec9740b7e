//! Lines about nodes.
ghost use Rattle.std.specs.Prelude.{◌≡◌, ◌-◌, ◌<◌, ◌&&◌, not, ◌==◌, true};
ghost use Rattle.bnc_server.specs.Command as spec;
ghost use Rattle.bnc_server.specs.HeldNode.{value_of, HasNodes};

/// What a line that begins with `%` asks of the nodes, which are numbered by their places from 0 on.
#[derive(Clone, Copy)]
pub(crate) enum NodeCommand {
    /// The client talks to that node.
    Select(usize),
    /// A node makes a packet for another, which takes it; then the first takes the acknowledgement.
    Exchange(usize, usize),
    /// The packet is lost.
    Lose(usize, usize),
    /// The acknowledgement is held back.
    HoldBack(usize, usize),
    /// A node takes the acknowledgement that is held back of another.
    HandOver(usize, usize),
    /// A node begins another life.
    Restart(usize),
    /// No line about nodes.
    BadForm,
}

fn is_node_digit(byte: u8) -> bool
    ensures { result ≡ spec.is_node_digit byte }
{
    b'1' <= byte && byte <= b'9'
}

fn are_node_digits(one: u8, two: u8) -> bool
    ensures { result ≡ (spec.is_node_digit one && (spec.is_node_digit two && not (one == two))) }
{
    is_node_digit(one) && (is_node_digit(two) && one != two)
}

// The place of the node with that digit.
fn place_of(digit: u8) -> usize
    requires { spec.is_node_digit digit ≡ true }
    ensures { result ≡ spec.index_of digit }
{
    (digit - b'1') as usize
}

/// What the text behind a `%` asks for.
pub(crate) fn command_of(text: &[u8]) -> NodeCommand
    ensures value { value_of result ≡ spec.command_of text.now }
    ensures nodes { HasNodes result }
{
    match text {
        [one] if is_node_digit(*one) => NodeCommand::Select(place_of(*one)),
        [one, b'*'] if is_node_digit(*one) => NodeCommand::Restart(place_of(*one)),
        [one, b'>', two] if are_node_digits(*one, *two) => {
            NodeCommand::Exchange(place_of(*one), place_of(*two))
        }
        [one, b'<', two] if are_node_digits(*one, *two) => {
            NodeCommand::HandOver(place_of(*one), place_of(*two))
        }
        [one, b'>', two, b'!'] if are_node_digits(*one, *two) => {
            NodeCommand::Lose(place_of(*one), place_of(*two))
        }
        [one, b'>', two, b'-'] if are_node_digits(*one, *two) => {
            NodeCommand::HoldBack(place_of(*one), place_of(*two))
        }
        _ => NodeCommand::BadForm,
    }
}
