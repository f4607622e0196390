//! Where a painter asks whether it is to stop.
ghost use Rattle.std.specs.Prelude.{◌≡◌, ◌≤◌, ◌+◌, ◌-◌, ◌↔◌, ℕ, IsTrue, false};
ghost use Rattle.cv_outside.specs.Counts.{Rose};

/// Who is asked between rows whether a painting is to stop.
pub trait Stop {
    /// How often the stop has said yes.
    ghost yeses: { Self → ℕ };

    /// Whether to stop. It waits for nobody. A yes counts once, and a no isn't counted.
    fn poll(&mut self) -> bool
        ensures counts { yeses self.old ≤ yeses self.new }
        ensures once { yeses self.new ≤ yeses self.old + 1 }
        ensures cause { IsTrue result → Rose (yeses self.old) (yeses self.new) }
        ensures quiet { result ≡ false → yeses self.new ≡ yeses self.old };
}

/// A stop that never says yes.
#[derive(Clone, Copy, Debug, PartialEq, Eq)]
pub struct Never;

impl Stop for Never {
    ghost yeses = { λ _. 0 };

    fn poll(&mut self) -> bool {
        false
    }
}

/// A stop that says yes from a poll on.
#[derive(Debug, Drop)]
pub struct After {
    silent: u64,
    yeses: u64,
}

impl After {
    /// A stop that says yes from its `n`-th poll on, counted from 1; for 0 from its first.
    pub fn new(n: u64) -> After
        ensures silent { result.silent ≡ n - 1 }
        ensures yeses { ⟦<After as Stop>⟧.yeses result ≡ 0 }
    {
        After {
            silent: n.saturating_sub(1),
            yeses: 0,
        }
    }
}

impl Stop for After {
    ghost yeses = { λ s. s.yeses };

    fn poll(&mut self) -> bool
        ensures counts { self.old.yeses ≤ self.new.yeses }
        ensures once { self.new.yeses ≤ self.old.yeses + 1 }
        ensures cause { IsTrue result → Rose self.old.yeses self.new.yeses }
        ensures quiet { result ≡ false → self.new.yeses ≡ self.old.yeses }
        ensures silent { self.new.silent ≡ self.old.silent - 1 }
        ensures turn { IsTrue result ↔ (self.old.silent ≡ 0) }
    {
        if self.silent == 0 {
            self.yeses = self.yeses.saturating_add(1);
            return true;
        }
        self.silent -= 1;
        false
    }
}
