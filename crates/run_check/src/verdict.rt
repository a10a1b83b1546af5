//! What a check answers.

/// Whether a text is that of a lawful run.
#[derive(Clone, Copy, Debug, PartialEq, Eq)]
pub enum Verdict {
    /// It is.
    Yes,
    /// It is not. The point is 0 where the text has not the form of a run, else the least of the points 1 to 6 that does not hold: each
    /// batch once (1), each caller's batches in record order (2), rounds one after another (3), reads within their rounds (4), numbers
    /// that never fall along a caller's reads (5), the text itself (6).
    No { point: u32 },
}
