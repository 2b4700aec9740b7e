//! Laws of the definitions. Their contracts are the laws, and their bodies are empty.
ghost use Rattle.std.specs.Prelude.{◌≡◌, ◌≢◌, ◌<◌, ◌↔◌, ◌++◌, ◌∷◌, [], ℕ, List, length, Option, Some};
ghost use Rattle.std.specs.Prelude.{true, slice_get};
ghost use Rattle.std.specs.FinMap.{get};
ghost use Rattle.chat_change.specs.declared.change.Change.{Change};
ghost use Rattle.chat_change.specs.Key.{Key};
ghost use Rattle.chat_history.specs.History.{norm};
ghost use Rattle.cluster_directory.specs.Terms.{Terms, names_of};
ghost use Rattle.peer_lines.specs.declared.peer_line.PeerLine.{PeerLine};
ghost use Rattle.gossip_link.specs.Cluster.{World, Send, Packet_comes, Ack_comes, run};
ghost use Rattle.gossip_link.specs.Promises.{IsReached, ComesFrom, Knows, Serves, PeerIncludes, IsAcknowledged, next_delta};
ghost use Rattle.gossip_link.specs.Handshake as spec;
ghost use Rattle.gossip_link.specs.declared.handshake.Side.{Side};
ghost use Rattle.gossip_link.specs.declared.handshake.Side.TheVariants.{Acceptor};
ghost use Rattle.gossip_link.specs.declared.handshake.Action.TheVariants.{Close};

pub mod connections;

/// Whatever happens in a cluster, in whatever order, and however often messages are lost, repeated or late, whichever
/// node starts again with nothing, in an incarnation that it never had, and whichever version each node speaks:
pub fn cluster()
    // Each node holds the normal form of what it took in its present life.
    ensures holds { (w : World) → IsReached w → (name : List ℕ) →
        (w.nodes name).history ≡ norm (w.nodes name).taken }
    // Whatever a node holds was made by some node.
    ensures made { (w : World) → IsReached w → (name : List ℕ) (k : Key) (c : Change) →
        get (w.nodes name).history k ≡ Some c → ComesFrom w.made c }
    // A peer whose present life is known includes what it acknowledged.
    ensures acknowledged { (w : World) → IsReached w → (name peer : List ℕ) →
        Knows w name peer → PeerIncludes w name peer }
    // Two nodes that acknowledged all of each other hold the same.
    ensures same { (w : World) → IsReached w → (name peer : List ℕ) →
        IsAcknowledged w name peer → IsAcknowledged w peer name →
        (w.nodes name).history ≡ (w.nodes peer).history }
{}

/// Where nothing is lost, a packet and its acknowledgement come after it is sent: then all of its delta is acknowledged by
/// a peer that speaks no lower version.
pub fn no_loss()
    ensures { (w : World) → IsReached w → (name peer : List ℕ) → name ≢ peer →
        Knows w name peer → Serves w name peer →
        0 < length (next_delta w name peer).changes →
        let v = run (Send name peer (length (w.nodes name).taken)
        ∷ Packet_comes peer name 0 ∷ Ack_comes name peer 0 ∷ []) w in
        ((v.nodes name).peers peer).acked ≡ (next_delta w name peer).to }
{}

/// What a node makes of the lines of a connection, whatever they are and in whatever order. A line is handed up exactly
/// where the lines so far, with it, are the shared word, then a hello of a configured peer other than this node, then
/// what that peer sends, and it goes to that peer's place. The own word and hello go out because of a line exactly where
/// this node accepted the connection and the lines are such a word and such a first hello, and no more. Once a connection
/// was to be closed nothing comes of its lines.
pub fn handshake()
    ensures handed_up { (t : Terms) (side : Side) (lines : List (Option PeerLine)) →
        ((place : ℕ) × (spec.handed_to (spec.last_action t side lines) ≡ Some place))
        ↔ spec.ArePeers t lines }
    ensures placed { (t : Terms) (side : Side) (lines : List (Option PeerLine)) (place : ℕ) →
        spec.handed_to (spec.last_action t side lines) ≡ Some place →
        (are : spec.ArePeers t lines) →
        slice_get (names_of t) place ≡ Some are.peer.node }
    ensures greets { (t : Terms) (side : Side) (lines : List (Option PeerLine)) →
        (spec.greets (spec.last_action t side lines) ≡ true)
        ↔ ((side ≡ Acceptor) × spec.ArePeers t lines × (length lines ≡ 2)) }
    ensures closed { (t : Terms) (side : Side) (lines more : List (Option PeerLine)) →
        spec.last_action t side lines ≡ Close →
        spec.last_action t side (lines ++ more) ≡ Close }
{}
