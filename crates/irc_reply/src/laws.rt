//! A law of the lines that the cluster sends. Its contract is the law, and its body is empty.
ghost use Rattle.std.specs.Prelude.{◌∷◌, ◌≤◌, ℕ, List, Option, IfSome};
ghost use Rattle.irc_line.specs.declared.line.TagLimit.{TagLimit};
ghost use Rattle.irc_line.specs.Lines.{AreLines};
ghost use Rattle.irc_time.specs.Time.{greatest};
ghost use Rattle.irc_reply.specs.Reply.{unknown_text, too_long_text, fail_text, mark_text};
ghost use Rattle.irc_reply.specs.Standing.{IsCluster, CanBeRefusal, IsWordTo, target_limit, word_limit};

/// What the cluster sends is lines that read back as the words that they were written from, within the limits of a line,
/// where the cluster's name is at most 63 bytes that may be a source, a nick and a target at most 200 and another word at
/// most 64 bytes that may be a parameter, and the words and the text of a refusal together at most 439 bytes.
pub fn replies_are_lines()
    ensures unknown { (limit : TagLimit) (cluster nick word : List ℕ) → IsCluster cluster
        → IsWordTo target_limit nick → IsWordTo word_limit word
        → AreLines limit (unknown_text cluster nick word) }
    ensures too_long { (limit : TagLimit) (cluster nick : List ℕ) → IsCluster cluster
        → IsWordTo target_limit nick → AreLines limit (too_long_text cluster nick) }
    ensures fail { (limit : TagLimit) (cluster command code : List ℕ) (context : List (List ℕ))
        (text : List ℕ) → IsCluster cluster → CanBeRefusal (command ∷ code ∷ context) text
        → AreLines limit (fail_text cluster command code context text) }
    ensures mark { (limit : TagLimit) (cluster target : List ℕ) (marker : Option ℕ)
        → IsCluster cluster → IsWordTo target_limit target → IfSome marker (λ t. t ≤ greatest)
        → AreLines limit (mark_text cluster target marker) }
{}
