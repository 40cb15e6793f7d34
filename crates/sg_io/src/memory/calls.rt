ghost use Rattle.std.specs.Prelude.{◌≡◌, ◌↔◌, ◌≤◌, IfOk, IsErr, IsTrue, Contains};
ghost use Rattle.sg_io.specs.Count.{CountsErrors, raised};
ghost use Rattle.sg_io.specs.Memory.{NumberedCalls};

use super::NoIoMemory;
use crate::count::Count;
use crate::source::Failed;
use std::alloc::Global;
use std::marker::Model;

/// The calls of a stream, numbered from 0. Those whose numbers are listed fail. At the end of a `u64` the number stands
/// still; no `u32` is as large, so no such call fails.
#[derive(Drop)]
pub struct Calls {
    fails: Vec<u32>,
    made: Count,
    faults: Count,
}

impl Model for Calls {
    ghost use Rattle.sg_io.specs.Memory.{NumberedCalls};

    ghost Value = { NumberedCalls };

    ghost view = { λ c. record { fails = c.fails.items; made = c.made; faults = c.faults } };
}

impl Calls {
    pub fn new(alloc: Global, fails: &[u32]) -> Result<Calls, NoIoMemory>
        ensures { IfOk result (λ calls.
            calls ≡ record { fails = fails.now; made = 0; faults = 0 }) }
    {
        match Vec::from_slice(alloc, fails) {
            Ok(fails) => Ok(Calls {
                fails,
                made: Count::new(),
                faults: Count::new(),
            }),
            Err(_) => Err(NoIoMemory),
        }
    }

    /// Makes the next call, which fails where its number is listed.
    pub fn make_next(&mut self) -> Result<(), Failed>
        ensures fails { IsErr result ↔ Contains self.old.fails self.old.made }
        ensures faults_later { self.old.faults ≤ self.new.faults }
        ensures counted { CountsErrors self.old.faults self.new.faults result }
        ensures made { self.new.made ≡ raised self.old.made }
        ensures same { self.new.fails ≡ self.old.fails }
    {
        let fails = is_listed(&self.fails, self.made.get());
        self.made.raise();
        if fails {
            self.faults.raise();
            return Err(Failed);
        }
        Ok(())
    }
}

fn is_listed(numbers: &[u32], call: u64) -> bool
    ensures { IsTrue result ↔ Contains numbers.now call }
{
    numbers.iter().any(|&number| u64::from(number) == call)
}
