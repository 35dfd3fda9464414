ghost use Rattle.std.specs.Prelude.{◌≡◌, ℕ};
ghost use Rattle.emc_base.specs.Faults.{one_more};

use std::marker::Model;

/// A count of steps. Code that is generic over it can only add to it, one step at a time.
pub trait Ledger {
    /// How many steps were counted. It stays at the last value of a `u64` once it is there.
    ghost count: { Self → ℕ };

    /// Raises the count by one, or leaves it at 18,446,744,073,709,551,615.
    fn tick(&mut self)
        ensures { count self.new ≡ one_more (count self.old) };
}

/// Steps that are counted from 0.
#[derive(Drop)]
pub struct Steps {
    steps: u64,
}

impl Model for Steps {
    ghost use Rattle.std.specs.Prelude.{ℕ};

    ghost Value = { ℕ };

    ghost view = { λ s. s.steps };
}

impl Steps {
    /// No steps yet.
    pub fn new() -> Steps
        ensures { result ≡ 0 }
    {
        Steps { steps: 0 }
    }

    /// How many steps were counted.
    pub fn count(&self) -> u64
        ensures { result ≡ self.now }
    {
        self.steps
    }
}

impl Ledger for Steps {
    ghost count = { λ steps. steps };

    fn tick(&mut self) {
        self.steps = self.steps.saturating_add(1);
    }
}
