//! The commands of the tool sample.
ghost use Rattle.std.specs.Prelude.{◌≡◌, ◌+◌, ◌*◌, ◌≤◌, IfOk, OnOk};
ghost use Rattle.pam_top.specs.Sample.{commands_over, next_number, number_at, pair_at, sample_commands, sample_pairs};
ghost use Rattle.tool_input.specs.Lawful.{IsLawful};
ghost use Rattle.tool_input.specs.declared.parsed.Parsed.TheVariants as parsed;

use aug_monoid::{NoMemory, Pair64};
use map_records::{How, MapCommand};
use script::Items;
use std::alloc::Global;
use tool_input::Parsed;

/// A linear congruential generator, with its last number.
#[derive(Clone, Copy, Debug)]
struct Generator {
    number: u64,
}

impl Generator {
    fn next(&mut self) -> u64
        ensures number { self.new.number ≡ next_number self.old.number }
        ensures result { result ≡ self.new.number }
    {
        self.number = self
            .number
            .wrapping_mul(6364136223846793005)
            .wrapping_add(1442695040888963407);
        self.number
    }

    // A pair of a sample of this size.
    #[tactic(auto, unfolding(crate::specs::Sample::number_at))]
    fn pair(&mut self, size: u64) -> Pair64
        requires some { 1 ≤ size }
        requires few { size ≤ 1000000 }
        ensures pair { result ≡ pair_at size self.old.number 0 }
        ensures number { self.new.number ≡ number_at self.old.number 2 }
    {
        let (key, val) = (self.next(), self.next());
        Pair64 {
            first: (key >> 32) % (2 * size),
            second: val >> 44,
        }
    }

    // As many pairs as the size says.
    fn pairs(&mut self, alloc: Global, size: u64) -> Result<Items<Pair64>, NoMemory>
        requires some { 1 ≤ size }
        requires few { size ≤ 1000000 }
        ensures pairs { IfOk result (λ pairs. pairs ≡ sample_pairs size self.old.number) }
        ensures number { OnOk result (self.new.number ≡ number_at self.old.number (2 * size)) }
    {
        let mut pairs = Vec::with_capacity(alloc, size as usize)?;
        for _ in 0..size {
            pairs.push(self.pair(size))?;
        }
        Ok(Items::new(pairs))
    }
}

// The commands over two maps that are made of these pairs.
fn commands_over(
    alloc: Global,
    first: Items<Pair64>,
    second: Items<Pair64>,
) -> Result<Vec<MapCommand>, NoMemory>
    ensures { IfOk result (λ list. list.items ≡ commands_over first second) }
{
    let list = vec![in alloc;
        MapCommand::Build { d: 0, pairs: first },
        MapCommand::Build {
            d: 1,
            pairs: second
        },
        MapCommand::Union {
            d: 2,
            a: 0,
            b: 1,
            how: How::Sum
        },
        MapCommand::Inter {
            d: 3,
            a: 0,
            b: 1,
            how: How::Max
        },
        MapCommand::Diff { d: 4, a: 0, b: 1 },
        MapCommand::Fold { m: 2 },
        MapCommand::Fold { m: 3 },
        MapCommand::Fold { m: 4 },
    ]?;
    Ok(list)
}

/// The commands of the tool sample for a seed and a size.
#[tactic(auto, unfolding(crate::specs::Sample::sample_commands))]
pub(crate) fn sample_commands(alloc: Global, seed: u64, size: u64) -> Result<Parsed, NoMemory>
    requires some { 1 ≤ size }
    requires few { size ≤ 1000000 }
    ensures exact { IfOk result (λ commands. commands ≡ parsed.Map (sample_commands seed size)) }
    ensures lawful { IfOk result IsLawful }
{
    let mut generator = Generator { number: seed };
    let first = generator.pairs(alloc, size)?;
    let second = generator.pairs(alloc, size)?;
    let list = commands_over(alloc, first, second)?;
    Ok(Parsed::Map(Items::new(list)))
}
