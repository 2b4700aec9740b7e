//! Laws of the definitions. Their contracts are the laws, and their bodies are empty.
ghost use Rattle.std.specs.Prelude.{◌++◌, ℕ, List, Contains};
ghost use Rattle.chat_change.specs.declared.change.Change.{Change};
ghost use Rattle.chat_history.specs.History.{Includes};
ghost use Rattle.history_file.specs.Changes.{Past, HasPast};
ghost use Rattle.keeper.specs.Keeper.{Says, Covers, HasNoOthers};
ghost use Rattle.keeper.specs.Lives.{Life, AreLives, AreRising, last_left, last_number, all_acknowledged, all_given};

/// After any lives, the file says all that any of them acknowledged.
pub fn nothing_acknowledged_is_lost()
    ensures { (first : List ℕ) (lives : List Life) (said : List Change) (n : ℕ)
        → Covers said n first → AreLives first lives
        → Covers (said ++ all_acknowledged lives) (last_number n lives) (last_left first lives) }
{}

/// After any lives, the file stands for nothing but what stems from what it stood for first, and from what came in these lives.
pub fn nothing_else_is_kept()
    ensures { (first : List ℕ) (lives : List Life) (given : List Change)
        → HasNoOthers given first → AreLives first lives
        → HasNoOthers (given ++ all_given lives) (last_left first lives) }
{}

/// The number of each life is above those of all before it.
pub fn each_life_is_above()
    ensures { (first : List ℕ) (lives : List Life) (said : List Change) (n : ℕ)
        → Covers said n first → AreLives first lives
        → AreRising n lives }
{}

/// What says a list of changes includes each of them.
pub fn each_is_included()
    ensures { (list said : List Change) (c : Change) → Says list said → Contains said c
        → Includes list c }
{}

/// Of changes that come, those that bring nothing new to a list may be left out of a file that says it.
pub fn what_is_not_new_may_be_left_out()
    ensures { (file list changes fresh : List Change) → Says file list
        → Says (list ++ fresh) changes
        → Says (file ++ fresh) (list ++ changes) }
{}

/// Each change that was acknowledged in any life is included in what the last file stands for, whatever crashes came between.
pub fn what_was_acknowledged_is_included()
    ensures { (first : List ℕ) (lives : List Life) (said : List Change) (n : ℕ)
        → Covers said n first → AreLives first lives
        → (c : Change) → Contains (all_acknowledged lives) c
        → (past : Past) × HasPast (last_left first lives) past × Includes past.changes c }
{}
