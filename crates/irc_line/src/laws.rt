//! Laws of the feeder, of the function that reads a line, and of lines that are written.
ghost use Rattle.std.specs.Prelude.{List, ℕ};
ghost use Rattle.irc_line.specs.declared.line.TagLimit.{TagLimit};
ghost use Rattle.irc_line.specs.Line.{IsAnswer, IsOnlyAnswer};
ghost use Rattle.irc_line.specs.Read.{read};
ghost use Rattle.irc_line.specs.Calls.{Call, GivesItems};
ghost use Rattle.irc_line.specs.Text.{Parts};
ghost use Rattle.irc_line.specs.CanStand.{CanStand, IsCutOut, HasMeaning, ReadsBack};
ghost use Rattle.irc_line.specs.Lines.{AreLines, AreCutOut, ReadBack};

/// Over any list of calls of a new feeder, the items given are a prefix of those of all bytes taken, however these
/// were cut into pieces, and what is held stands for the others.
pub fn calls_give_items()
    ensures { (calls : List Call) (rest : List ℕ) → GivesItems calls rest }
{}

/// The function `read` answers by the rules: it gives the reading of each line that has one, and else the first of its
/// faults. Nothing else is an answer by the rules.
pub fn read_is_the_reading()
    ensures answer { (limit : TagLimit) (text : List ℕ) → IsAnswer limit text (read limit text) }
    ensures only { (limit : TagLimit) (text : List ℕ) → IsOnlyAnswer limit text (read limit text) }
{}

/// What [`write_line`](crate::write_line) writes from parts that may stand in their places, within the limits, is one
/// line of a stream, and that line reads back as those parts. There are such parts.
pub fn written_lines_read_back()
    ensures cut { (limit : TagLimit) (p : Parts) → CanStand limit p → IsCutOut p }
    ensures reads { (limit : TagLimit) (p : Parts) → CanStand limit p → HasMeaning limit p }
    ensures read { (limit : TagLimit) (p : Parts) → CanStand limit p → ReadsBack limit p }
    ensures some { (limit : TagLimit) → (p : Parts) × CanStand limit p }
{}

/// A text that is lines, each of parts that may stand in their places, is cut into just these lines, whatever follows it,
/// and each of them reads back as its parts.
pub fn lines_read_back()
    ensures cut { (limit : TagLimit) (text : List ℕ) (are : AreLines limit text) →
        AreCutOut text are.lines }
    ensures read { (limit : TagLimit) (text : List ℕ) (are : AreLines limit text) →
        ReadBack limit are.lines }
{}
