// Calls that are counted, so that those at given ordinals can be made to fail.
ghost use Rattle.std.specs.Prelude.{◌≡◌, ◌≤◌, [], IsTrue};
ghost use Rattle.ap_host.specs.Calls.{Rose};
ghost use Rattle.ap_host.specs.Ordinals.{Ordinals as Counts, is_due, counted};

use std::marker::Model;

/// Which calls are to fail, and how many were made and have failed.
#[derive(Drop)]
pub struct Ordinals {
    failing: Vec<u64>,
    next: u64,
    faults: u64,
}

impl Model for Ordinals {
    ghost use Rattle.ap_host.specs.Ordinals.{Ordinals as Counts};

    ghost Value = { Counts };

    ghost view = { λ o. record { failing = o.failing.items; next = o.next; faults = o.faults } };
}

impl Ordinals {
    /// No call was made yet. The calls at these ordinals, counted from 0, are to fail.
    pub fn new(failing: Vec<u64>) -> Ordinals
        ensures { result ≡ record { failing = failing.items; next = 0; faults = 0 } }
    {
        Ordinals {
            failing,
            next: 0,
            faults: 0,
        }
    }

    /// How many calls have failed.
    pub fn faults(&self) -> u64
        ensures { result ≡ self.now.faults }
    {
        self.faults
    }

    /// Counts a call, and says whether it is to fail.
    pub fn fails(&mut self) -> bool
        ensures due { result ≡ is_due self.old }
        ensures counts { self.new ≡ counted self.old }
        ensures later { self.old.faults ≤ self.new.faults }
        ensures rose { IsTrue result → Rose self.old.faults self.new.faults }
    {
        let at = self.next;
        let due = at < u64::MAX && self.failing.as_slice().contains(&at);
        self.next = at.saturating_add(1);
        if due {
            self.faults = self.faults.saturating_add(1);
        }
        due
    }
}
