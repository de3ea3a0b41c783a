ghost use Rattle.causes.specs.Faults.{next_count};
ghost use Rattle.std.specs.Prelude.{◌≡◌, ◌≤◌, ◌↔◌, Contains, IsTrue};

/// Which calls are to fail, and how many calls and faults were counted.
#[derive(Drop)]
pub struct FailingCalls {
    /// The numbers of the calls that are to fail.
    pub listed: Vec<u64>,
    /// How many calls there were.
    pub calls: u64,
    /// How many of them failed.
    pub faults: u64,
}

impl FailingCalls {
    /// The calls with these numbers are to fail; none was made yet.
    pub fn new(listed: Vec<u64>) -> FailingCalls
        ensures listed { result.listed ≡ listed }
        ensures calls { result.calls ≡ 0 }
        ensures faults { result.faults ≡ 0 }
    {
        FailingCalls {
            listed,
            calls: 0,
            faults: 0,
        }
    }

    /// Numbers one more call, and returns whether it is to fail.
    pub fn begins_failing(&mut self) -> bool
        ensures listed { IsTrue result ↔ Contains self.new.listed.items self.new.calls }
        ensures counted { self.new ≡ record self.old { calls = next_count self.old.calls } }
    {
        self.calls = self.calls.saturating_add(1);
        self.listed.contains(&self.calls)
    }

    /// Counts a fault.
    pub fn fail(&mut self)
        ensures counted { self.new ≡ record self.old { faults = next_count self.old.faults } }
        ensures later { self.old.faults ≤ self.new.faults }
    {
        self.faults = self.faults.saturating_add(1);
    }
}
