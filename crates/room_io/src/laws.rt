//! Laws about the words of these contracts: each is the contract of a function that does nothing.
ghost use Rattle.std.specs.Prelude.{Some, [], ◌∷◌};
ghost use Rattle.room_io.specs.Causes.{AppendsPrefix, Rose};

/// A sink that gained other bytes than the first ones gained no prefix, and a count that stayed below
/// its last value has not risen.
pub fn wrong_gains_are_refused()
    ensures other { AppendsPrefix (Some []) (Some (8 ∷ [])) (7 ∷ 8 ∷ []) → ⊥ }
    ensures longer { AppendsPrefix (Some []) (Some (7 ∷ 8 ∷ 9 ∷ [])) (7 ∷ 8 ∷ []) → ⊥ }
    ensures same { Rose 5 5 → ⊥ }
{}
