//! Laws of the definitions. Their contracts are the laws, and their bodies are empty.
ghost use Rattle.std.specs.Prelude.{◌≡◌, ◌≤◌, ℕ, List, Ok, false, length};
ghost use Rattle.std.specs.List.{list_any};
ghost use Rattle.byte_text.specs.Bytes.{ends_line};
ghost use Rattle.chat_change.specs.declared.change.Change.{Change};
ghost use Rattle.change_lines.specs.ChangeLine.{read_change};
ghost use Rattle.chat_change.specs.Lawful.{IsLawfulChange};
ghost use Rattle.change_lines.specs.ChangeText.{line_of};

/// What is written is read back: the line of each change with lawful parts spells that change.
pub fn changes_read_back()
    ensures { (c : Change) → IsLawfulChange c → read_change (line_of c) ≡ Ok c }
{}

/// A change has one spelling: each line that spells it is the one that is written, and its parts are lawful.
pub fn changes_have_one_spelling()
    ensures spelling { (line : List ℕ) (c : Change) → read_change line ≡ Ok c → line ≡ line_of c }
    ensures lawful { (line : List ℕ) (c : Change) → read_change line ≡ Ok c → IsLawfulChange c }
{}

/// The line of each change with lawful parts may stand in a stream of lines: it has no NUL, CR or LF, and at most 8000 bytes.
pub fn lines_of_changes_stand()
    ensures one_line { (c : Change) → IsLawfulChange c → list_any ends_line (line_of c) ≡ false }
    ensures short { (c : Change) → IsLawfulChange c → length (line_of c) ≤ 8000 }
{}
