ghost use Rattle.std.specs.Prelude.{◌≡◌, ◌≤◌};
ghost use Rattle.sg_io.specs.Count.{raised};

use std::marker::Model;

/// How often something went wrong. It stands still at the last value of a `u64`.
#[derive(Drop)]
pub struct Count {
    value: u64,
}

impl Model for Count {
    ghost use Rattle.std.specs.Prelude.{ℕ};

    ghost Value = { ℕ };

    ghost view = { λ count. count.value };
}

impl Count {
    pub fn new() -> Count
        ensures { result ≡ 0 }
    {
        Count { value: 0 }
    }

    pub fn get(&self) -> u64
        ensures { result ≡ self.now }
    {
        self.value
    }

    pub fn raise(&mut self)
        ensures raised { self.new ≡ raised self.old }
        ensures later { self.old ≤ self.new }
    {
        self.value = self.value.saturating_add(1);
    }
}
