//! What the words behind the program's name ask for.
ghost use Rattle.std.specs.Prelude.{◌≡◌, map, option_map, string_bytes};
ghost use Rattle.std.specs.Map.Iter.{deref};
ghost use Rattle.bnc_keep.specs.Words as spec;

// Whether a word is that of an option, as `--help`. There is none.
fn is_option(word: &str) -> bool
    ensures { result ≡ spec.is_option word.now }
{
    word.as_bytes().starts_with(b"-")
}

/// The path of the configuration that the words spell: one word alone, which is no option.
pub(crate) fn path_in(words: &[String]) -> Option<&str>
    ensures { option_map deref result ≡ spec.spelled_path (map string_bytes words.now) }
{
    match words {
        [word] if !is_option(word.as_str()) => Some(word.as_str()),
        _ => None,
    }
}
