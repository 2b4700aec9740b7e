//! Laws of the definitions. Their contracts are the laws, and their bodies are empty.
ghost use Rattle.std.specs.Prelude.{◌≡◌, ◌≤◌, ◌++◌, ◌∷◌, [], ℕ, List, None, Some, Ok, Err};
ghost use Rattle.std.specs.Prelude.{length, map};
ghost use Rattle.std.specs.List.{All, repeat};
ghost use Rattle.irc_line.specs.Stream.{items, line, max_line};
ghost use Rattle.peer_lines.specs.Packet.{Packet};
ghost use Rattle.peer_lines.specs.Spelling.{IsPeerLine, IsPacket, Spells, lines_of, text_of, written, packet_text};
ghost use Rattle.peer_lines.specs.Gather.{Gather, pushed, after, answers};
ghost use Rattle.cluster_directory.specs.declared.fault.LinkFault.{LinkFault};
ghost use Rattle.peer_lines.specs.declared.peer_line.PeerLine.{PeerLine};
ghost use Rattle.peer_lines.specs.declared.gather.Arrived.TheVariants as arrived;

/// Bytes spell at most one line, so that what is read of a line that was written is that line.
pub fn lines_have_one_spelling()
    ensures { (bytes : List ℕ) (a b : PeerLine) → Spells bytes a → Spells bytes b → a ≡ b }
{}

/// The lines of a packet are lines of a peer. Pushed in turn into an empty gather they give that packet, with the last of
/// them, and nothing else; and then the gather is empty again, as it is after each refusal.
pub fn packets_arrive()
    ensures lines { (p : Packet) → IsPacket p → All IsPeerLine (lines_of p) }
    ensures arrives { (p : Packet) → IsPacket p → answers None (lines_of p)
        ≡ repeat (length p.changes) (Ok None ∷ []) ++ Ok (Some (arrived.Packet p)) ∷ [] }
    ensures whole { (p : Packet) → IsPacket p → after None (lines_of p) ≡ None }
    ensures refused { (g : Gather) (l : PeerLine) (f : LinkFault) →
        (pushed g l).answer ≡ Err f → (pushed g l).gather ≡ None }
{}

/// What is written is cut into lines again: a `Feeder` of [`irc_line`] makes of a stream just the lines that were written
/// into it, whatever follows them. Each of them, with its ending, is within the limit of a line of a stream.
pub fn lines_are_cut_as_they_were_written()
    ensures line { (l : PeerLine) (rest : List ℕ) → IsPeerLine l →
        items (written l ++ rest) ≡ line (text_of l) ∷ items rest }
    ensures packet { (p : Packet) (rest : List ℕ) → IsPacket p →
        items (packet_text p ++ rest) ≡ map (λ l. line (text_of l)) (lines_of p) ++ items rest }
    ensures within { (l : PeerLine) → IsPeerLine l → length (written l) ≤ max_line }
{}
