//! Laws of moments and their texts. Their contracts are the laws, and their bodies are empty.
ghost use Rattle.std.specs.Prelude.{◌≡◌, ◌≤◌, ℕ, List};
ghost use Rattle.irc_time.specs.Time.{IsTime, IsTextOf, greatest};
ghost use Rattle.irc_time.specs.Text.{time_text};

/// A text is read as one moment at most.
pub fn a_text_has_one_moment()
    ensures { (bytes : List ℕ) (t u : ℕ) → IsTime bytes t → IsTime bytes u → t ≡ u }
{}

/// A moment is written as one text at most.
pub fn a_moment_has_one_text()
    ensures { (a b : List ℕ) (t : ℕ) → IsTextOf a t → IsTextOf b t → a ≡ b }
{}

/// What is written is read back.
pub fn what_is_written_is_read_back()
    ensures { (bytes : List ℕ) (t : ℕ) → IsTextOf bytes t → IsTime bytes t }
{}

/// Each moment up to the greatest has a text.
pub fn each_moment_has_a_text()
    ensures { (t : ℕ) → t ≤ greatest → IsTextOf (time_text t) t }
{}
