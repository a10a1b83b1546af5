//! Look-ups in one register that stand in a row, done at once.
ghost use Rattle.std.specs.Prelude.{◌≡◌, ◌<◌, ◌++◌, IfOk, IfSome, OnOk};
ghost use Rattle.map_tool.specs.Effects.{map_after, map_reply};
ghost use Rattle.map_tool.specs.Registers.{maps_of};
ghost use Rattle.map_tool.specs.Runs.{after_all, found_lines, gets_from};
ghost use Rattle.script.specs.Replies.{replies};

use crate::doing::push_found;
use crate::registers::Registers;
use aug_monoid::NoMemory;
use map_records::MapCommand;
use std::alloc::Global;

/// The keys that commands look up in a register; none where one is no look-up in it.
pub(crate) fn keys_asked(
    alloc: Global,
    number: u8,
    commands: &[MapCommand],
) -> Result<Option<Vec<u64>>, NoMemory>
    ensures { IfOk result (λ found. IfSome found (λ keys. commands.now ≡ gets_from number keys.items)) }
{
    let mut keys = Vec::with_capacity(alloc, commands.len())?;
    for command in commands {
        match command {
            MapCommand::Get { m, k } if *m == number => keys.push(*k)?,
            _ => return Ok(None),
        }
    }
    Ok(Some(keys))
}

// Appends the reply of a look-up for each value that may be there.
fn push_each_found(text: &mut Vec<u8>, vals: &[Option<u64>]) -> Result<(), NoMemory>
    ensures { OnOk result (text.new.items ≡ text.old.items ++ found_lines vals.now) }
{
    for val in vals {
        push_found(*val, text)?;
    }
    Ok(())
}

impl Registers {
    /// Looks up keys in a register all at once, and appends the reply of each. After a refusal nothing is said of the text.
    #[tactic(auto, using(crate::proofs::Rows::replies_gets, crate::proofs::Rows::after_all_gets))]
    pub(crate) fn get_many(
        &self,
        alloc: Global,
        number: u8,
        keys: &[u64],
        text: &mut Vec<u8>,
    ) -> Result<(), NoMemory>
        requires { number < 16 }
        ensures replies { OnOk result (text.new.items ≡ text.old.items ++ replies map_reply map_after (maps_of self.now) (gets_from number keys.now)) }
        ensures after { maps_of self.now ≡ after_all (maps_of self.now) (gets_from number keys.now) }
    {
        let vals = self.at(number).get_many(alloc, keys)?;
        push_each_found(text, &vals)
    }
}
