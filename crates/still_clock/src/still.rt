use flow_base::Clock;

/// A clock that always gives the moment to which it was set. It tells this moment when it is set, and once more each time
/// that it is read, until it has been read `u64::MAX` times.
#[derive(Drop)]
pub struct Still {
    pub moment: u64,
    pub reads: u64,
}

impl Clock for Still {
    ghost use Rattle.still_clock.specs.Clocks.{told};

    ghost log = { λ c. told c };

    fn now_ms(&mut self) -> u64 {
        self.reads = self.reads.saturating_add(1);
        self.moment
    }
}
