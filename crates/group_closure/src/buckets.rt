//! Where the operators of a list that grows stand, found by a number of each instead of a walk over all.
ghost use Rattle.std.specs.Prelude.{◌≡◌, ◌+◌, ◌<◌, ◌≤◌, ◌↔◌, ◌++◌, [], ◌∷◌, ℕ, Some, IsSome, IfSome, length, slice_get, slice_index};
ghost use Rattle.std.specs.List.{Contains, fold};
ghost use Rattle.group_closure.specs.Buckets.{mixed, bucket_of, IsFiled};

use crate::MAX_OPERATORS;
use exact_ops::Op;

/// The places of operators by their buckets. A place is held as one more than it is, and 0 means none.
#[derive(Drop)]
pub struct Buckets {
    /// The last place in each bucket.
    pub heads: [u8; 256],
    /// The last place before each that is in its bucket.
    pub before: [u8; 256],
}

impl Buckets {
    /// No places.
    pub fn new() -> Buckets
        ensures { IsFiled [] result }
    {
        Buckets {
            heads: [0; 256],
            before: [0; 256],
        }
    }

    /// The place of an operator among those that are filed.
    pub fn find(&self, members: &[Op], op: &Op) -> Option<u8>
        requires filed { IsFiled members.now self.now }
        requires few { length members.now ≤ MAX_OPERATORS }
        ensures some { IsSome result ↔ Contains members.now op.now }
        ensures place { IfSome result (λ i. slice_get members.now i ≡ Some op.now) }
    {
        let mut candidate = self.heads[bucket(op)];
        while candidate > 0 {
            let place = candidate - 1;
            if members[usize::from(place)] == *op {
                return Some(place);
            }
            candidate = self.before[usize::from(place)];
        }
        None
    }

    /// Files an operator that comes at the end of the list.
    pub fn add(&mut self, members: &[Op], op: &Op)
        requires filed { IsFiled members.now self.old }
        requires few { length members.now ≤ MAX_OPERATORS }
        ensures { IsFiled (members.now ++ op.now ∷ []) self.new }
    {
        let place = members.len();
        let bucket = bucket(op);
        self.before[place] = self.heads[bucket];
        self.heads[bucket] = place as u8 + 1;
    }
}

/// The bucket of an operator.
fn bucket(op: &Op) -> usize
    ensures value { result ≡ bucket_of op.now }
    ensures within { result < 256 }
{
    mix(mix(0, &op.w()), &op.t()) as usize
}

/// Mixes numbers into a seed.
fn mix(seed: u64, numbers: &[i32]) -> u64
    requires { seed < 256 }
    ensures value { result ≡ fold mixed seed numbers.now }
    ensures within { result < 256 }
{
    let mut mix = seed;
    for number in numbers {
        mix = (5 * mix + u64::from(number.rem_euclid(64).unsigned_abs())) % 256;
    }
    mix
}
