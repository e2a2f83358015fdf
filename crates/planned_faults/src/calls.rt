// Calls, of which some are to fail.

ghost use Rattle.std.specs.Prelude.{◌≡◌, ◌↔◌, IsTrue};
ghost use Rattle.planned_faults.specs.Plan.{after_call, FailsNext};

use std::marker::Model;

/// The numbers, from 1, of the calls that are to fail, and how many calls were made: at most the greatest u64.
#[derive(Drop)]
pub struct Calls {
    to_fail: Vec<u64>,
    made: u64,
}

impl Model for Calls {
    ghost use Rattle.planned_faults.specs.Plan.{Plan};

    ghost Value = { Plan };

    ghost view = { λ c. record { to_fail = c.to_fail.items; made = c.made } };
}

impl Calls {
    /// No call was made. Those with these numbers, from 1, are to fail.
    pub fn new(to_fail: Vec<u64>) -> Self
        ensures { result ≡ record { to_fail = to_fail.items; made = 0 } }
    {
        Calls { to_fail, made: 0 }
    }

    /// Counts a call, and says whether it is to fail.
    pub fn next_fails(&mut self) -> bool
        ensures counted { self.new ≡ after_call self.old }
        ensures fails { IsTrue result ↔ FailsNext self.old }
    {
        self.made = self.made.saturating_add(1);
        self.to_fail.contains(&self.made)
    }
}
