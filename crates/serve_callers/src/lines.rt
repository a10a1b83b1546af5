//! Lines that wait to be written.
ghost use Rattle.std.specs.Prelude.{◌≡◌, ◌++◌, ◌∷◌, [], List, ℕ, MatchResult, OnErr, OnOk};

use aug_monoid::NoMemory;
use std::alloc::Global;
use std::collections::VecDeque;
use std::marker::Model;

/// A line of text, seen as its bytes.
#[derive(Drop)]
struct Line {
    bytes: Vec<u8>,
}

impl Model for Line {
    ghost use Rattle.std.specs.Prelude.{List, ℕ};

    ghost Value = { List ℕ };

    ghost view = { λ a. a.bytes.items };
}

/// Lines in order, seen as their bytes.
#[derive(Drop)]
pub struct Lines {
    queue: VecDeque<Line>,
}

impl Model for Lines {
    ghost use Rattle.std.specs.Prelude.{List, ℕ};

    ghost Value = { List (List ℕ) };

    ghost view = { λ a. a.queue.items };
}

impl Lines {
    /// No lines. It takes no memory.
    pub fn new(alloc: Global) -> Lines
        ensures { result ≡ [] }
    {
        Lines {
            queue: VecDeque::new(alloc),
        }
    }

    /// One more line, or none: after a refusal the lines are as before.
    pub fn push(&mut self, bytes: Vec<u8>) -> Result<(), NoMemory>
        ensures { MatchResult result (λ _. self.new ≡ self.old ++ bytes.items ∷ []) (λ _. self.new ≡ self.old) }
    {
        match self.queue.push_back(Line { bytes }) {
            Ok(()) => Ok(()),
            Err(_) => Err(NoMemory),
        }
    }

    /// Moves the first line, if there is one, to the end of a text. Where there is none, and after a refusal, both are as before.
    pub fn write_first(&mut self, text: &mut Vec<u8>) -> Result<(), NoMemory>
        ensures moved { OnOk result ((line : List ℕ) (rest : List (List ℕ)) → self.old ≡ line ∷ rest → (self.new ≡ rest) × (text.new.items ≡ text.old.items ++ line)) }
        ensures none { OnOk result (self.old ≡ [] → (self.new ≡ []) × (text.new.items ≡ text.old.items)) }
        ensures kept { OnErr result ((self.new ≡ self.old) × (text.new.items ≡ text.old.items)) }
    {
        let Some(line) = self.queue.front() else {
            return Ok(());
        };
        text.extend_from_slice(line.bytes.as_slice())?;
        let _written = self.queue.pop_front();
        Ok(())
    }
}
