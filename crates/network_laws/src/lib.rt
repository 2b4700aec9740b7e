//! What holds of all that may be told and put, in a reader's words. The contracts are the laws, and the bodies do nothing.
#![tactic(auto)]

ghost use Rattle.std.specs.Prelude.{◌≡◌, ◌⊎◌, ◌++◌, Bool, ℕ, List, [], Some, slice_get};
ghost use Rattle.std.specs.List.{IsDistinct};
ghost use Rattle.std.specs.Str.{bytes_eq};
ghost use mathlib.Core.List.{IsPrefix};
ghost use Rattle.irc_line.specs.Stream.{items};
ghost use Rattle.chat_change.specs.declared.change.Change.{Change};
ghost use Rattle.cluster_directory.specs.declared.config.SessionConfig.{SessionConfig};
ghost use Rattle.client_session.specs.declared.effect.Effect.{Effect};
ghost use Rattle.client_session.specs.declared.stage.Stage.{Stage};
ghost use Rattle.client_session.specs.Events.{ClientEvent};
ghost use Rattle.gossip_link.specs.Session.{opening};
ghost use Rattle.gossip_link.specs.declared.handshake.Side.TheVariants.{Opener};
ghost use Rattle.network_log.specs.Guest.{Guest};
ghost use Rattle.network_log.specs.Host.{BatchEntry, Host};
ghost use Rattle.network_log.specs.Log.{NetworkEvent};
ghost use Rattle.network_log.specs.NetworkState.{NetworkState};
ghost use Rattle.network_log.specs.Putting.{AreBrought, MayBePutFor};
ghost use Rattle.network_log.specs.Telling.{MayBeTold};
ghost use Rattle.network_log.specs.declared.origin.Origin.TheVariants.{ClientCame, NetworkDialed, PeerCame, PeerDialed};
ghost use Rattle.network_log.specs.Truth.{AreTrue, IsReached, Leads};
ghost use Rattle.network_laws.specs.Heard.{IsHeardOverItsConnection, ServerIsHeardOverItsConnection};
ghost use Rattle.network_laws.specs.LetIn.{HasLoggedIn, IsOfNetwork};
ghost use Rattle.network_laws.specs.Acts.{Act, AreActsOf, AreOnce};
ghost use Rattle.network_laws.specs.Once.{AreDifferent, AreDifferentActs, JoinsOnce, comers, ids_over, serials_of};
ghost use Rattle.network_laws.specs.Own.{AreForItsAccount};
ghost use Rattle.network_laws.specs.Past.{AreOfNetwork, HasSameOf, IsAmong, holding};
ghost use Rattle.network_laws.specs.Puts.{PutsWhatWasSaid};
ghost use Rattle.network_laws.specs.Stranger.{AreOfAPeer, IsGreeted};
ghost use Rattle.network_laws.specs.Streams.{AreStreams, HearsItsClientsAlone, Stream, said_of};
ghost use Rattle.network_laws.specs.Told.{Course, HearsItsOwnAlone, HearsItsSessionAlone};

use chat_query::laws::answers_are_of_the_own_past;
use client_session::laws::{
    each_reaches_its_own_past_alone, nobody_enters_without_the_secret, nothing_follows_close,
};
use gossip_link::laws::connections::messages_come_from_peers;
use node_ports::Connection;
use upstream_session::laws::{changes_are_its_own, ids_are_made_once};

/// A network is one of this node's: the one that its configuration has at that place. Whatever happens to it, it stays that.
pub fn a_network_is_as_configured<C: Connection>()
    ensures is { (w : NetworkState) → IsReached C.facts w
        → slice_get C.facts.accounts.networks w.place ≡ Some w.config }
    ensures stays { (old new : NetworkState) → Leads C.facts old new
        → (new.place ≡ old.place) × (new.config ≡ old.config) }
{}

/// Where a connection joins a network once, none comes twice: to whatever a network came, in no true log from there on is the
/// connection of a client or a server the one of an earlier client or server.
pub fn no_connection_comes_twice<C: Connection>()
    ensures { JoinsOnce C.facts → (w : NetworkState) (log : List NetworkEvent)
        → AreTrue C.facts w log → AreDifferent (comers log) }
{}

/// A client of a network is heard over its own connection alone. Its session came to what it is by the first lines of what came
/// over that very connection, which is a client's and joined that network, in order, each once, and by answers to it. Each line is
/// heard by this node's accounts, and with whether the node held the message that it names.
pub fn a_client_is_heard_over_its_own_connection<C: Connection>()
    ensures { (w : NetworkState) (place : ℕ) (g : Guest)
        → IsReached C.facts w → slice_get w.guests place ≡ Some g
        → IsHeardOverItsConnection C.facts w.place g }
{
    nobody_enters_without_the_secret();
    each_reaches_its_own_past_alone();
    nothing_follows_close();
}

/// A client is in a network only where its own lines bear the secret of that account in this node's configuration: by the first of the
/// lines that came over its own connection, its last user name is that of the account and the network, and its last password the
/// account's secret.
pub fn a_client_is_let_in_by_its_secret<C: Connection>()
    ensures { (w : NetworkState) (place : ℕ) (g : Guest)
        → IsReached C.facts w → slice_get w.guests place ≡ Some g
        → HasLoggedIn C.facts w.config g }
{
    nobody_enters_without_the_secret();
}

/// A client stays in the network that it was let in to: its session is registered with the account and the network that this node's
/// configuration has there, until it is closed. So all that it hears, asks and puts is of these.
pub fn a_client_stays_in_its_network<C: Connection>()
    ensures { (w : NetworkState) (place : ℕ) (g : Guest)
        → IsReached C.facts w → slice_get w.guests place ≡ Some g
        → IsOfNetwork w.config g.session }
{
    each_reaches_its_own_past_alone();
    nothing_follows_close();
}

/// The server of a network is heard over its own connection alone, which was dialed for that network: of the lines that came over
/// it its session heard the first ones, in order, each once, but for those that may be left out, and beside them lines that were
/// said to it.
pub fn a_server_is_heard_over_its_own_connection<C: Connection>()
    ensures { (w : NetworkState) (h : Host)
        → IsReached C.facts w → w.server ≡ Some h
        → ServerIsHeardOverItsConnection C.facts w h }
{}

/// A client is told of its own network alone. Either its session was never registered, and what it was told are the first bytes of
/// what that session said to the lines that came over this very connection. Or it has said the secret of an account over it, what
/// it was told is what the log of that account's network gives, and that is, in order: its session's own lines, and answers to its
/// own questions from what the node held; its share of what came of the lines of that network's servers, and of those that clients
/// of that network said to them, each once and without a gap, once it was put; and markers of its account and network.
pub fn a_client_is_told_of_its_own_network_alone<C: Connection>()
    ensures { (serial : ℕ) (received bytes : List ℕ)
        → MayBeTold C.facts ClientCame serial received bytes
        → HearsItsSessionAlone C.facts serial received bytes
        ⊎ HearsItsOwnAlone C.facts serial received bytes }
{
    nobody_enters_without_the_secret();
    each_reaches_its_own_past_alone();
    nothing_follows_close();
}

/// Nobody else's past is among it. Whatever a client of a network was told, by the same lines of its own and the same entries it may
/// be told by a node that holds nothing but changes of its account and network (`alone`). And it may be told the same wherever
/// the node holds the same of these, whatever else it holds (`same`).
pub fn a_client_is_told_of_its_own_past_alone<C: Connection>()
    ensures alone { (config : SessionConfig) (events : List ClientEvent) (session : Stage)
        (todo : List Effect) (waiting : List ℕ) (heard : List BatchEntry) (nick told : List ℕ)
        → Course C.facts config events session todo waiting heard nick told
        → Course (holding (AreOfNetwork config) C.facts) config
        events session todo waiting heard nick told }
    ensures same { (these : List Change → Bool) (config : SessionConfig)
        (events : List ClientEvent) (session : Stage)
        (todo : List Effect) (waiting : List ℕ) (heard : List BatchEntry) (nick told : List ℕ)
        → HasSameOf config C.facts.held (IsAmong these)
        → Course C.facts config events session todo waiting heard nick told
        → Course (holding (IsAmong these) C.facts) config
        events session todo waiting heard nick told }
{
    answers_are_of_the_own_past();
}

/// A server is told what its session says and what its own clients said, once. What goes out over a connection that was dialed for a
/// network begins what its session opens with, then what that answers to the lines that came over this very connection, and gives
/// on of lines for the server. Each of these is what the session of a client of that network had to say to the server by the lines
/// that came over the client's own connection, and none is said twice, also not over a later connection.
pub fn a_server_is_told_its_own_sessions_and_clients_lines_once<C: Connection>()
    ensures { (network serial : ℕ) (received bytes : List ℕ)
        → MayBeTold C.facts (NetworkDialed network) serial received bytes
        → HearsItsClientsAlone C.facts network serial received bytes }
{
    nobody_enters_without_the_secret();
    each_reaches_its_own_past_alone();
    nothing_follows_close();
}

/// What is put for a network was said to it. All that was put for it, and what may be put now behind that, are, in order, changes that
/// came of lines which came over connections dialed to its server or which its clients said, and read markers that its clients'
/// sessions put: each at most once.
pub fn what_is_put_was_said_to_this_network<C: Connection>()
    ensures { (place : ℕ) (puts held changes : List Change)
        → MayBePutFor C.facts place puts held changes
        → PutsWhatWasSaid C.facts place puts held changes }
{
    nobody_enters_without_the_secret();
    each_reaches_its_own_past_alone();
    nothing_follows_close();
}

/// All that is put for a network is of its account. Every change that was put for the network at a place, and that may be put for it
/// now, is a message, a redaction or a read marker in a buffer of the account and the network that this node's configuration has
/// there.
pub fn each_puts_for_its_account_alone<C: Connection>()
    ensures { (place : ℕ) (puts held changes : List Change)
        → MayBePutFor C.facts place puts held changes
        → AreForItsAccount C.facts place (puts ++ changes) }
{
    nobody_enters_without_the_secret();
    each_reaches_its_own_past_alone();
    nothing_follows_close();
    changes_are_its_own();
}

/// Nothing is there twice. Where a connection joins a network once, the connections to a network's server that the laws name are
/// different (`streams`), and so is all that clients had to do: what they said to the server (`said`), and what they put
/// (`acts`).
pub fn nothing_is_there_twice<C: Connection>()
    ensures streams { JoinsOnce C.facts
        → (place : ℕ) (config : SessionConfig) (bound : ℕ) (streams : List Stream)
        → AreStreams C.facts place config bound streams → AreDifferent (serials_of streams) }
    ensures said { JoinsOnce C.facts
        → (place : ℕ) (config : SessionConfig) (bound : ℕ) (streams : List Stream)
        → AreStreams C.facts place config bound streams → AreOnce (said_of streams)
        → AreDifferentActs (said_of streams) }
    ensures acts { JoinsOnce C.facts → (place : ℕ) (config : SessionConfig) (acts : List Act)
        → AreActsOf C.facts place config acts → AreOnce acts → AreDifferentActs acts }
{}

/// No id is made twice for a network. Each session with its server goes on from the serial number at which the one before ended, so all
/// ids that these sessions make are different, over all connections of this node's life.
pub fn no_id_is_made_twice<C: Connection>()
    ensures { (place : ℕ) (config : SessionConfig) (bound : ℕ) (streams : List Stream)
        → AreStreams C.facts place config bound streams
        → IsDistinct bytes_eq (ids_over C.facts config streams) }
{
    changes_are_its_own();
    ids_are_made_once();
}

/// Nothing is said to a stranger. Until the other node has said the right word and the hello of a configured peer over this very
/// connection, nothing goes out over one that came (`came`), and over one that was dialed at most the greeting (`dialed`). And
/// changes are taken only from a peer that has said both (`taken`).
pub fn nothing_is_said_to_a_stranger<C: Connection>()
    ensures came { (serial : ℕ) (received bytes : List ℕ)
        → MayBeTold C.facts PeerCame serial received bytes
        → (bytes ≡ []) ⊎ IsGreeted C.facts.terms (items received) }
    ensures dialed { (peer serial : ℕ) (received bytes : List ℕ)
        → MayBeTold C.facts (PeerDialed peer) serial received bytes
        → IsPrefix bytes (opening C.facts.terms (Opener peer))
        ⊎ IsGreeted C.facts.terms (items received) }
    ensures taken { (changes : List Change)
        → AreBrought C.facts changes → AreOfAPeer C.facts changes }
{
    messages_come_from_peers();
}
