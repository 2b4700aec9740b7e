//! The acts of a case that are still to come.
use std::alloc::{AllocError, Global};
use std::collections::VecDeque;

/// The acts that are still to come.
#[derive(Drop)]
pub struct Script {
    acts: VecDeque<String>,
    // so many of the next acts happen at once
    together: usize,
}

// The lines of a case that begin with no space.
fn acts_of(alloc: Global, text: &str) -> Result<VecDeque<String>, AllocError> {
    let mut acts = VecDeque::new(alloc);
    for line in text.lines() {
        if !line.starts_with(" ") {
            acts.push_back(String::from_str(alloc, line)?)?;
        }
    }
    Ok(acts)
}

impl Script {
    /// The acts of a case.
    pub fn new(alloc: Global, text: &str) -> Result<Script, AllocError> {
        Ok(Script {
            acts: acts_of(alloc, text)?,
            together: 0,
        })
    }

    /// So many of the next acts happen at once.
    pub fn set_together(&mut self, count: usize) {
        self.together = count;
    }

    /// Whether the next act happens at once. Then one fewer of those behind it does.
    pub fn is_together(&mut self) -> bool {
        let is_together = self.together != 0;
        self.together = self.together.saturating_sub(1);
        is_together
    }

    /// The next act.
    pub fn next_act(&mut self) -> Option<String> {
        self.acts.pop_front()
    }
}
