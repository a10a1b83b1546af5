//! An inverted index: documents with weighted terms, kept as postings by term.
//!
//! An `Index` is a map from terms to `Postings`, the maps from documents to weights, whose fold has the greatest weight.
//! Documents are added one at a time or in batches (`add_doc`, `add_docs`), a term's weight being how often the text has it, or what a
//! rule of the user's makes of that (`Weigh`, `add_docs_by`).
//! `remove_doc` and `replace_doc` take one out again; `size`, `has_doc`, `doc_freq`, `terms` and `terms_from` tell what there is.
//! `all_of`, `any_of` and `without` intersect, unite and take away postings; `top` answers the first documents by falling weight.
//! `matching` answers the documents of a term as `Matches`, of which larger questions are put together, and their first documents.
//! What is called with a runtime and a cut forks where the cut allows it; its twin with a name in `_alone` does the same on one
//! thread. An index is persistent: each answer shares what it can with the index before. A call refuses only for want of memory.
//!
//! Tests: `library_tests`. Wrong bodies: here, in `wrong-bodies/`.
#![tactic(auto)]

mod adding;
mod batch;
mod cross;
mod doc;
mod finding;
mod hit;
mod index;
mod listing;
mod marking;
mod matching;
mod postings;
mod queries;
mod ranking;
mod removing;
mod sorting;
mod table;
mod tally;
mod term;
mod text;
mod weigh;
mod weighing;

pub use adding::Added;
pub use cross::index_crosses;
pub use doc::{AddedDocs, Doc, Outcome};
pub use hit::Hit;
pub use index::{Index, Lists};
pub use matching::Matches;
pub use postings::{Postings, Weights};
pub use term::{Term, TermFault, is_term};
pub use weigh::{Times, Weigh};
