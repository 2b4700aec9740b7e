//! What holds of every list of lines.
ghost use Rattle.std.specs.Prelude.{◌≡◌, ℕ, List, Some, IsTrue, ◌↔◌};
ghost use Rattle.irc_caps.specs.declared.capability.Capability.{Capability};
ghost use Rattle.irc_caps.specs.Capability.{name_of, capability_of};
ghost use Rattle.irc_caps.specs.CapSet.{holds};
ghost use Rattle.irc_caps.specs.Negotiation.{new};
ghost use Rattle.irc_caps.specs.Runs.{Input, run, acknowledged, IsAskedLast};

/// After any list of lines a session holds a capability exactly where a word of an acknowledged `CAP REQ` named it, and
/// the last word that did has no `-` (IRCv3 capability negotiation, "The CAP REQ subcommand").
pub fn the_last_word_counts()
    ensures { (inputs : List Input) (c : Capability) → IsTrue (holds
        (run new inputs).caps c) ↔ IsAskedLast c (acknowledged inputs) }
{}

/// A text names the capability that has it for its name, and no other text names that.
pub fn names_are_their_own()
    ensures { (name : List ℕ) (c : Capability) → (capability_of name ≡ Some c) ↔ (name
        ≡ name_of c) }
{}
