//! What operations on one key come to.
ghost use Rattle.std.specs.Prelude.{◌≡◌};
ghost use Rattle.op_runs.specs.Outcomes.{followed_by, left_by};

/// What operations on one key, one after another, come to.
#[derive(Clone, Copy, Debug)]
pub enum Outcome {
    /// The key stays as it was.
    Nothing,
    /// The key has this value.
    Set { val: u64 },
    /// The key is not there.
    Gone,
    /// So much is added to the value of the key, up to `u64::MAX`; a key that was not there is set to it.
    Added { val: u64 },
}

impl Outcome {
    /// What this outcome and then a later one come to.
    pub fn followed_by(self, later: Outcome) -> Outcome
        ensures { result ≡ followed_by self later }
    {
        match later {
            Outcome::Nothing => self,
            Outcome::Set { val: _ } => later,
            Outcome::Gone => later,
            Outcome::Added { val } => match self {
                Outcome::Nothing => later,
                Outcome::Set { val: old } => Outcome::Set {
                    val: old.saturating_add(val),
                },
                Outcome::Gone => Outcome::Set { val },
                Outcome::Added { val: sum } => Outcome::Added {
                    val: sum.saturating_add(val),
                },
            },
        }
    }

    /// The value of a key after this outcome, from its value before: none where the key is not there.
    pub fn leaves(self, value: Option<u64>) -> Option<u64>
        ensures { result ≡ left_by self value }
    {
        match self {
            Outcome::Nothing => value,
            Outcome::Set { val } => Some(val),
            Outcome::Gone => None,
            Outcome::Added { val } => Some(match value {
                None => val,
                Some(old) => old.saturating_add(val),
            }),
        }
    }
}
