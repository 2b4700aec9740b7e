//! Laws of the definitions. Their contracts are the laws, and their bodies are empty.
ghost use Rattle.std.specs.Prelude.{◌≡◌, ℕ, List};
ghost use Rattle.block_file.specs.Blocks.{StandsFor};

/// A file stands for one list of payloads at most.
pub fn files_stand_for_one_list()
    ensures { (file : List ℕ) (ps qs : List (List ℕ)) → StandsFor file ps → StandsFor file qs
        → ps ≡ qs }
{}
