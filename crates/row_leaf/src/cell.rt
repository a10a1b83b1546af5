//! What a row has at a place: a column and a weight.
ghost use Rattle.std.specs.Prelude.{◌≡◌, ◌+◌, length, drop};
ghost use Rattle.gap_code.specs.Leb.{BeginsWith};
ghost use Rattle.row_leaf.specs.Code.{CellFits, cell_bytes, cell_of};
ghost use Rattle.row_leaf.specs.CodeLaws.{cell_read_back};

use aug_monoid::{NoMemory, Share};
use gap_code::{ValueCode, number_at, push_number};
use std::alloc::Global;

/// A column and the weight there.
#[derive(Clone, Copy, Debug, PartialEq, Eq)]
pub(crate) struct Cell {
    pub(crate) column: u64,
    pub(crate) weight: u64,
}

impl Share for Cell {
    ghost never_refuses = { Unit {0} };

    fn share(&self, _alloc: Global) -> Result<Cell, NoMemory> {
        Ok(*self)
    }

    fn is_total() -> bool {
        true
    }
}

/// The bytes of the column, and then those of the weight.
impl ValueCode for Cell {
    const ROOM: usize = 20;

    ghost fits_bytes = { CellFits };

    ghost bytes_of = { cell_bytes };

    ghost value_of = { cell_of };

    ghost read_back = { λ c others fits. cell_read_back c others fits };

    #[tactic(auto, using(map_model::proofs::Prefixes::front_same, map_model::proofs::Prefixes::front_further))]
    fn code_to(&self, out: &mut Vec<u8>) -> Result<(), NoMemory> {
        push_number(out, self.column)?;
        push_number(out, self.weight)
    }

    #[inline(always)]
    fn code_at(from: &[u8], at: usize) -> (Cell, usize) {
        let (column, middle) = number_at(from, at);
        let (weight, after) = number_at(from, middle);
        (Cell { column, weight }, after)
    }

    #[inline(always)]
    fn code_end(from: &[u8], at: usize) -> usize {
        let middle = u64::code_end(from, at);
        u64::code_end(from, middle)
    }
}

/// The column whose bytes stand at a place, and the place after its weight, which is not read.
#[inline(always)]
pub(crate) fn column_at(from: &[u8], at: usize) -> (u64, usize)
    requires { BeginsWith CellFits cell_bytes (drop at from.now) }
    ensures value { result.0 ≡ (cell_of (drop at from.now)).column }
    ensures after { result.1 ≡ at + length (cell_bytes (cell_of (drop at from.now))) }
{
    let (column, middle) = number_at(from, at);
    (column, u64::code_end(from, middle))
}
