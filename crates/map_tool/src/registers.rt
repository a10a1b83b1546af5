//! Sixteen maps.
ghost use Rattle.std.specs.Prelude.{◌≡◌, ◌<◌, IfOk};
ghost use Rattle.map_tool.specs.Bounds.{height_of};
ghost use Rattle.map_tool.specs.Effects.{HasEffect, changes};
ghost use Rattle.map_tool.specs.Registers.{empty_registers, maps_of, register};

use aug_map::PlainMap;
use aug_monoid::{NoMemory, SumMax};
use script::line;
use std::alloc::Global;
use std::marker::Model;

/// How many registers there are.
const REGISTERS: usize = 16;

/// A map from `u64` to `u64` with the saturating sum and the greatest of its values.
pub(crate) type Register = PlainMap<SumMax<u64>>;

/// Sixteen registers, 0 to 15, each with a map. Contracts see them as the list of these maps.
pub struct Registers {
    pub(crate) maps: Vec<Register>,
}

impl Model for Registers {
    ghost use Rattle.std.specs.Prelude.{◌≡◌, ℕ, List, length};
    ghost use Rattle.map_model.specs.Contents.{Contents};

    ghost Value = { List (Contents ℕ ℕ) };

    ghost view = { λ r. r.maps.items };

    ghost invariant = { λ r. length r.maps.items ≡ 16 };
}

impl Drop for Registers {
    fn drop(self) {
        let Registers { maps } = self;
        drop(maps);
    }
}

impl Registers {
    /// Sixteen registers, each with an empty map.
    pub fn empty(alloc: Global) -> Result<Registers, NoMemory>
        ensures { IfOk result (λ registers. maps_of registers ≡ empty_registers) }
    {
        let mut maps = Vec::new(alloc);
        for _ in 0..REGISTERS {
            maps.push(Register::empty())?;
        }
        Ok(Registers { maps })
    }

    /// The map of a register.
    pub(crate) fn at(&self, number: u8) -> &Register
        requires { number < 16 }
        ensures entries { result.now.entries ≡ register (maps_of self.now) number }
        ensures height { result.now.height ≡ height_of self.now number }
    {
        &self.maps[number as usize]
    }

    /// Gives a register a map, and appends the reply. A refusal leaves the registers and the text as they were.
    #[tactic(auto, using(crate::proofs::Kept::stored_is))]
    pub(crate) fn store(
        &mut self,
        number: u8,
        map: Register,
        text: &mut Vec<u8>,
    ) -> Result<(), NoMemory>
        requires { number < 16 }
        ensures { HasEffect (changes number map.entries) result self.old self.new text.old.items text.new.items }
    {
        line(text, "ok", &[map.size()])?;
        self.maps[number as usize] = map;
        Ok(())
    }
}
