//! What holds of all encodings.
ghost use Rattle.std.specs.Prelude.{◌≡◌, ℕ, List};
ghost use Rattle.std.specs.Ordering.{nat_cmp};
ghost use Rattle.map_model.specs.Entries.{IsIncreasing};
ghost use Rattle.entry_bytes.specs.Faults.{IsFirstFault};
ghost use Rattle.entry_bytes.specs.Format.{IsMap, encoding};
ghost use Rattle.entry_bytes.specs.declared.fault.DecodeFault.{DecodeFault};

/// Different maps have different bytes, and bytes with a fault are those of no map. It does nothing, and is there for the proof of
/// that alone.
pub fn encodings_differ()
    ensures one_map { (m n : List (ℕ × ℕ)) → IsIncreasing nat_cmp m → IsIncreasing nat_cmp n → encoding m ≡ encoding n → m ≡ n }
    ensures no_fault { (fault : DecodeFault) (bytes : List ℕ) (m : List (ℕ × ℕ)) → IsMap m → bytes ≡ encoding m → IsFirstFault fault bytes → ⊥ }
{}
