//! The form of cases:
//!
//!     == title
//!     script
//!     --
//!     what is expected
//!
//! What stands before the first `: ` of a title is the case's setting. A case of `peer` may have no `--`: then the script
//! itself is what is expected. A NUL may be spelled `␀`, and a CR `␍`. `client`, `upstream`, `peer` and `replays` say what
//! else stands in theirs.
use std::alloc::{AllocError, Global};

/// How what is played stands at first, what is played, and what is expected, where it says so.
#[derive(Clone, Copy)]
pub struct Case<'a> {
    pub setting: &'a str,
    pub script: &'a str,
    pub expected: Option<&'a str>,
}

impl<'a> Case<'a> {
    /// The case that a part of a file spells.
    pub fn of(part: &'a str) -> Case<'a> {
        let (title, rest) = part.split_once("\n").unwrap_or((part, ""));
        let (setting, _) = title.split_once(": ").unwrap_or((title, ""));
        let (script, expected) = match rest.split_once("\n--\n") {
            Some((script, expected)) => (script, Some(expected)),
            None => (rest, None),
        };
        Case {
            setting,
            script,
            expected,
        }
    }
}

/// What a text spells.
pub fn spelled(alloc: Global, script: &str) -> Result<String, AllocError> {
    let with_nul = script.replace(alloc, "␀", "\0")?;
    with_nul.replace(alloc, "␍", "\r")
}
