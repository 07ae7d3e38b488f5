//! Which call of a device in memory comes to a bad end.

ghost use Rattle.std.specs.Prelude.{◌≡◌, ℕ, ◌+◌, Option, Some, None};

/// What happens to one call of a device in memory.
#[derive(Drop)]
pub enum PlannedFault {
    /// The call fails. If it is a write, its range then begins with `torn`, as far as that fits. Later calls are made.
    Fails { torn: Vec<u8> },
    /// The run stops before the call. It fails, and so does each later one.
    StopsBefore,
    /// The run stops within the call: as `Fails`, but each later call fails, too.
    StopsWithin { torn: Vec<u8> },
}

/// What a call comes to.
#[derive(Drop)]
pub enum Outcome {
    /// It is done.
    Done,
    /// It fails, and changes no byte.
    Refused,
    /// It fails, and a write's range begins with the bytes.
    Torn(Vec<u8>),
}

/// What the calls from now on come to.
#[derive(Drop)]
pub struct Plan {
    /// How many calls are done before the one with the fault.
    before: u64,
    fault: Option<PlannedFault>,
    /// Whether the run has stopped.
    stopped: bool,
}

impl Plan {
    ghost use Rattle.tp_disk.specs.declared.plan.Outcome.{Outcome};
    ghost use Rattle.tp_disk.specs.Plan.{becomes, planned};

    /// Makes a plan in which every call is done.
    pub fn faultless() -> Plan
        ensures { (n : ℕ) → becomes result n ≡ Outcome.Done }
    {
        Plan {
            before: 0,
            fault: None,
            stopped: false,
        }
    }

    /// Makes a plan in which the call with this number has a fault. The next call has number 0.
    pub fn with_fault(call: u64, fault: PlannedFault) -> Plan
        ensures { (n : ℕ) → becomes result n ≡ planned (Some fault) call n }
    {
        Plan {
            before: call,
            fault: Some(fault),
            stopped: false,
        }
    }

    /// Tells what the next call comes to.
    pub fn next(&mut self) -> Outcome
        ensures now { result ≡ becomes self.old 0 }
        ensures later { (n : ℕ) → becomes self.new n ≡ becomes self.old (n + 1) }
    {
        if self.stopped {
            return Outcome::Refused;
        }
        if self.before > 0 {
            self.before -= 1;
            return Outcome::Done;
        }
        match self.fault.take() {
            None => Outcome::Done,
            Some(PlannedFault::Fails { torn }) => Outcome::Torn(torn),
            Some(PlannedFault::StopsBefore) => {
                self.stopped = true;
                Outcome::Refused
            }
            Some(PlannedFault::StopsWithin { torn }) => {
                self.stopped = true;
                Outcome::Torn(torn)
            }
        }
    }
}
