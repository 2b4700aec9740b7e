//! Laws of connections with peers: when packets are made, and what comes of a connection's lines. Their contracts are the
//! laws, and their bodies do nothing but name the law that they rest on, where there is one.
ghost use Rattle.std.specs.Prelude.{◌≡◌, ◌⊎◌, ◌++◌, ◌∷◌, [], ◌&&◌, ℕ, List, Option, Some, None};
ghost use Rattle.std.specs.Prelude.{false, true, length, nat_le, slice_get};
ghost use Rattle.std.specs.List.{list_any, count_by};
ghost use Rattle.peer_lines.specs.declared.peer_line.PeerLine.{PeerLine};
ghost use Rattle.peer_lines.specs.declared.gather.Arrived.{Arrived};
ghost use Rattle.cluster_directory.specs.Terms.{Terms, names_of};
ghost use Rattle.gossip_link.specs.Handshake.{ArePeers};
ghost use Rattle.gossip_link.specs.declared.handshake.Side.{Side};
ghost use Rattle.gossip_link.specs.declared.handshake.Side.TheVariants.{Acceptor};
ghost use Rattle.gossip_link.specs.Session.{Session, greeting, step, fault_of, is_close};
ghost use Rattle.gossip_link.specs.Lines.{last_step};
ghost use Rattle.gossip_link.specs.declared.heard.Heard.TheVariants.{Message, Close};
ghost use Rattle.gossip_link.specs.Pace as pace;
ghost use Rattle.gossip_link.specs.Course as course;
ghost use Rattle.gossip_link.specs.declared.pace.Pace.{Pace};
ghost use Rattle.gossip_link.specs.declared.pace.TheConstants.{MOST_UNANSWERED};

/// Nothing is made before the peer's hello.
pub fn nothing_before_the_hello()
    ensures { (events : List course.PaceEvent) → list_any course.is_hello events ≡ false →
        pace.is_due (course.after_all events pace.new) ≡ false }
{}

/// Never are two packets under way: after one was made, the next is due only once that one was acknowledged, or had waited
/// long enough.
pub fn one_packet_at_a_time()
    ensures { (p : Pace) (to since : ℕ) (events : List course.PaceEvent) →
        list_any course.is_making events ≡ false →
        pace.is_due (course.after_all events (pace.made (Some to) since p)) ≡ true →
        list_any (course.ends_wait to since) events ≡ true }
{}

/// No publish is forgotten: until the next packet was to be made, one is due as soon as none is under way.
pub fn no_publish_is_forgotten()
    ensures { (p : Pace) (events : List course.PaceEvent) → p.is_greeted ≡ true →
        list_any course.is_making events ≡ false →
        (course.after_all events (pace.published p)).under_way ≡ None →
        pace.is_due (course.after_all events (pace.published p)) ≡ true }
{}

/// A peer has caught up only once it has said hello. And whenever it says hello, something is published, it acknowledges a
/// number or a packet is made, it has caught up only once a further packet was to be made and nothing was new.
pub fn caught_up_once_nothing_is_new()
    ensures hello { (events : List course.PaceEvent) → list_any course.is_hello events ≡ false →
        pace.is_caught_up (course.after_all events pace.new) ≡ false }
    ensures news { (p : Pace) (event : course.PaceEvent) (events : List course.PaceEvent) →
        course.is_news event ≡ true → list_any course.finds_nothing events ≡ false →
        pace.is_caught_up (course.after_all (event ∷ events) p) ≡ false }
{}

/// A connection is closed exactly where three packets or more were made since the last acknowledgement, and the last of
/// them has waited long enough.
pub fn closed_after_three_packets()
    ensures none { (p : Pace) (upto : ℕ) → (pace.acknowledged upto p).unanswered ≡ 0 }
    ensures closed { (p : Pace) (events : List course.PaceEvent) (now : ℕ) → p.unanswered ≡ 0 →
        list_any course.is_acknowledgement events ≡ false →
        let q = course.after_all events p in
        pace.is_over now q
        ≡ (pace.has_waited now q.under_way
        && nat_le MOST_UNANSWERED (count_by course.is_packet events)) }
{}

/// What comes of the lines of a connection, whatever they are and in whatever order. A message arrives only where the lines
/// so far, with it, are the shared word, then a hello of a configured peer other than this node, then what that peer
/// sends; and it goes to that peer's place. Something is sent because of a line only where the other node opened the
/// connection and the lines are such a word and such a first hello, and no more: it is the greeting to that peer, so no
/// stranger learns the word. Once a connection is to be closed no packet is due, and each further line is refused.
pub fn messages_come_from_peers()
    ensures arrives { (t : Terms) (side : Side) (before : List (Option PeerLine))
        (line : Option PeerLine) (place : ℕ) (arrived : Arrived) →
        (last_step t side before line).heard ≡ Message place arrived →
        (are : ArePeers t (before ++ line ∷ []))
        × (slice_get (names_of t) place ≡ Some are.peer.node) }
    ensures sent { (t : Terms) (side : Side) (before : List (Option PeerLine))
        (line : Option PeerLine) → let lines = before ++ line ∷ [] in
        ((last_step t side before line).sent ≡ [])
        ⊎ ((side ≡ Acceptor) × (length lines ≡ 2) × (are : ArePeers t lines)
        × (place : ℕ) × (slice_get (names_of t) place ≡ Some are.peer.node)
        × ((last_step t side before line).sent ≡ greeting t place)) }
    ensures closed { (t : Terms) (s : Session) (line next : Option PeerLine) →
        is_close (step t s line).heard ≡ true → let then = step t (step t s line).session next in
        (pace.is_due (step t s line).session.pace ≡ false)
        × (then.heard ≡ Close (fault_of t.me.node next)) × (then.sent ≡ []) }
{
    super::handshake();
}
