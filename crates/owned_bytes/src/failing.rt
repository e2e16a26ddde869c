// Calls that shall fail, by their numbers.
ghost use Rattle.std.specs.Prelude.{◌≡◌, IsTrue};
ghost use Rattle.owned_bytes.specs.Outside.{HasCause};
ghost use Rattle.owned_bytes.specs.InMemory.{fails_next, after_call, at_first};

use std::marker::Model;

// Which calls shall fail, by their numbers from 1 on, and how many were made and failed.
#[derive(Drop)]
pub(crate) struct FailingCalls {
    fails: Vec<u64>,
    calls: u64,
    faults: u64,
}

impl Model for FailingCalls {
    ghost use Rattle.owned_bytes.specs.InMemory.{Failing};

    ghost Value = { Failing };

    ghost view = { λ f. record { fails = f.fails.items; calls = f.calls; faults = f.faults } };
}

impl FailingCalls {
    pub(crate) fn new(fails: Vec<u64>) -> FailingCalls
        ensures { result ≡ at_first fails.items }
    {
        FailingCalls {
            fails,
            calls: 0,
            faults: 0,
        }
    }

    // Whether the call that begins now shall fail.
    pub(crate) fn fails_now(&mut self) -> bool
        ensures answer { result ≡ fails_next self.old }
        ensures counts { self.new ≡ after_call self.old }
        ensures cause { HasCause self.old.faults self.new.faults (IsTrue result) }
    {
        self.calls = self.calls.saturating_add(1);
        let fails = self.fails.contains(&self.calls);
        if fails {
            self.faults = self.faults.saturating_add(1);
        }
        fails
    }
}
