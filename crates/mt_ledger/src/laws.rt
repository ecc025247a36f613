//! What follows from the exact lists of the calls. The contract of each function is the law; there is
//! nothing to run.
ghost use Rattle.std.specs.Prelude.{◌≡◌, ◌≢◌, ◌<◌, ◌≤◌, ◌+◌, ◌-◌, ◌∷◌, ◌++◌, ℕ, List, [], length, replicate, Contains};
ghost use Rattle.mt_ledger.specs.Ledger.{turn_after, turn_before};
ghost use Rattle.mt_ledger.specs.Pools.{PoolPorts, ports_at, ranges, with_ports};
ghost use Rattle.mt_ledger.specs.Ports.{NoneTwice, ports_from};
ghost use Rattle.mt_ledger.specs.Whole.{AreCalls, IsTogether};

/// As a ledger is opened, stock, shares and tokens are together the pool.
pub fn together_at_first()
    ensures { (lo hi servers : ℕ) → IsTogether lo hi (ports_from lo (hi + 1 - lo)) (replicate servers []) [] }
{}

/// After any list of calls stock, shares and tokens are together the pool.
pub fn together_after_calls()
    ensures { (lo hi : ℕ) (stock : List ℕ) (shares : List (List ℕ)) (tokens stock_after : List ℕ) (shares_after : List (List ℕ)) (tokens_after : List ℕ)
        → AreCalls stock shares tokens stock_after shares_after tokens_after
        → IsTogether lo hi stock shares tokens → IsTogether lo hi stock_after shares_after tokens_after }
{}

/// Then no port stands twice among the stock and one share, nor among one share and a token.
pub fn together_is_apart()
    ensures stock_and_share { (lo hi : ℕ) (stock share : List ℕ) (before after : List (List ℕ)) (tokens : List ℕ)
        → IsTogether lo hi stock (before ++ share ∷ after) tokens → NoneTwice (stock ++ share) }
    ensures share_and_token { (lo hi : ℕ) (stock share : List ℕ) (before after : List (List ℕ)) (earlier later : List ℕ) (port : ℕ)
        → IsTogether lo hi stock (before ++ share ∷ after) (earlier ++ port ∷ later) → NoneTwice (port ∷ share) }
{}

/// Other ports in one pool leave the other pools and all ranges.
pub fn one_pool_changes()
    ensures here { (pools : List PoolPorts) (k : ℕ) (ports : List ℕ) → k < length pools → ports_at (with_ports pools k ports) k ≡ ports }
    ensures others { (pools : List PoolPorts) (k j : ℕ) (ports : List ℕ) → j ≢ k → ports_at (with_ports pools k ports) j ≡ ports_at pools j }
    ensures ranges { (pools : List PoolPorts) (k : ℕ) (ports : List ℕ) → ranges (with_ports pools k ports) ≡ ranges pools }
{}

/// A step back undoes a step on.
pub fn retreat_undoes_advance()
    ensures { (patterns turn : ℕ) → turn < patterns → turn_before patterns (turn_after patterns turn) ≡ turn }
{}
