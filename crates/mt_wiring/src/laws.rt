//! A law of ways. The contract of the function is the law.
ghost use Rattle.std.specs.Prelude.{ℕ, Bool, List};
ghost use Rattle.mt_graph.specs.declared.Wire.{Wire};
ghost use Rattle.mt_wiring.specs.Ways.{OnRing, IsRank};

/// Where no element is on a ring, input ports have ranks that every wire lowers, up to the number of wires.
pub fn ranks()
    ensures { (leads : ℕ → ℕ → ℕ → Bool) (wires : List Wire) → ((element : ℕ) → OnRing leads wires element → ⊥) → (rank : ℕ × ℕ → ℕ) × IsRank leads wires rank }
{}
