//! Sixteen sequences.
ghost use Rattle.std.specs.Prelude.{◌≡◌, ◌<◌, IfOk, length};
ghost use Rattle.seq_tool.specs.Registers.{empty_registers, lists_of, register, with_register};

use aug_monoid::NoMemory;
use pac_seq::{Seq, SumTop};
use std::alloc::Global;

/// How many registers there are.
const REGISTERS: usize = 16;

/// A sequence of numbers with their saturating sum and the greatest of them.
pub(crate) type Register = Seq<SumTop, 32>;

/// Sixteen registers, each an empty sequence.
#[tactic(auto, using(crate::proofs::Kept::emptied))]
pub(crate) fn empty_registers(alloc: Global) -> Result<Vec<Register>, NoMemory>
    ensures count { IfOk result (λ registers. length registers.items ≡ 16) }
    ensures lists { IfOk result (λ registers. lists_of registers.items ≡ empty_registers) }
{
    let mut registers = Vec::new(alloc);
    for _ in 0..REGISTERS {
        registers.push(Register::new())?;
    }
    Ok(registers)
}

/// The sequence of a register.
pub(crate) fn seq_at(registers: &[Register], number: u64) -> &Register
    requires count { length registers.now ≡ 16 }
    requires low { number < 16 }
    ensures { result.now.items ≡ register (lists_of registers.now) number }
{
    &registers[number as usize]
}

/// Gives a register a sequence.
#[tactic(auto, using(crate::proofs::Kept::stored_is))]
pub(crate) fn store(registers: &mut [Register], number: u64, seq: Register)
    requires count { length registers.old ≡ 16 }
    requires low { number < 16 }
    ensures count { length registers.new ≡ 16 }
    ensures lists { lists_of registers.new ≡ with_register (lists_of registers.old) number seq.items }
{
    registers[number as usize] = seq;
}
