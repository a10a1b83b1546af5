//! The records of a served input.
use versions::Batch;

/// What a caller does.
#[derive(Drop)]
pub enum Act<O: Drop, Q: Drop> {
    /// It submits a batch.
    Submit { batch: Batch<O> },
    /// It asks the newest version.
    Read { query: Q },
}

/// A record: its number, its caller from 0 on, its round, and what the caller does.
#[derive(Drop)]
pub struct Record<O: Drop, Q: Drop> {
    pub place: u64,
    pub caller: u32,
    pub round: u64,
    pub act: Act<O, Q>,
}
