//! How served states answer queries by text.
ghost use Rattle.std.specs.Prelude.{◌≡◌, ◌++◌, ℕ, List, MatchResult};
ghost use Rattle.serve_text.specs.Determined.{HasNoLineFeed, IsLastLine};
ghost use Rattle.serve_text.specs.Texts.{Extends};

use aug_monoid::NoMemory;
use std::alloc::Global;
use std::marker::{Send, Sync};
use versions::State;

/// How a state answers queries, each by one line of text.
pub trait Answers<S: State>: Drop + Send + Sync {
    /// What can be asked.
    type Query: Copy + Send + Sync;

    /// The answer, without a line feed.
    ghost answer_of: { S → Self.Query → List ℕ };

    /// The last line of a text that ends in this state, with its line feed.
    ghost last_of: { S → List ℕ };

    /// Appends the answer, or the first part of it.
    fn answer(
        alloc: Global,
        state: &S,
        query: &Self::Query,
        out: &mut Vec<u8>,
    ) -> Result<(), NoMemory>
        ensures { MatchResult result (λ _. out.new.items ≡ out.old.items ++ answer_of state.now query.now) (λ _. Extends out.old.items out.new.items) };

    /// Appends the last line, or the first part of it.
    fn write_last(alloc: Global, state: &S, out: &mut Vec<u8>) -> Result<(), NoMemory>
        ensures { MatchResult result (λ _. out.new.items ≡ out.old.items ++ last_of state.now) (λ _. Extends out.old.items out.new.items) };

    ghost in_line: { (state : S) (query : Self.Query) → HasNoLineFeed (answer_of state query) };

    ghost last_line: { (state : S) → IsLastLine (last_of state) };
}
