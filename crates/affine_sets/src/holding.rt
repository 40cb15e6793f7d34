//! The elements that are held while a group grows: at most one of each member.
ghost use Rattle.std.specs.Prelude.{◌≡◌, ◌<◌, ℕ, None, IfOk, slice_index_or};
ghost use Rattle.group_closure.specs.declared.TheConstants.{MAX_OPERATORS as PLACES};
ghost use Rattle.affine_sets.specs.Growth.{Holds, Puts};

use crate::growth::Placed;
use crate::numbers::Offset;
use exact_ops::NoMemory;
use group_closure::MAX_OPERATORS;
use std::alloc::Global;
use std::marker::Model;

/// It is seen as the list of whole shifts: of each member that of its element, where one is held.
#[derive(Drop)]
pub struct Held {
    /// Of each member the place of its element in the list, one more than it is, and 0 means none.
    places: [u8; MAX_OPERATORS],
    /// The elements, in the order in which they came.
    list: Vec<Placed>,
}

impl Model for Held {
    ghost use Rattle.std.specs.Prelude.{Option, List, ◌≤◌, vec_capacity};
    ghost use Rattle.group_closure.specs.declared.TheConstants.{MAX_OPERATORS as PLACES};
    ghost use Rattle.affine_sets.specs.declared.numbers.Offset.{Offset};
    ghost use Rattle.affine_sets.specs.Filing.{filed_shifts, AreFiled};

    ghost Value = { List (Option Offset) };

    ghost view = { λ a. filed_shifts a.list.items a.places };

    ghost invariant = { λ a. AreFiled a.list.items a.places × (PLACES ≤ vec_capacity a.list) };
}

impl Held {
    /// No elements.
    pub fn new(alloc: Global) -> Result<Held, NoMemory>
        ensures { IfOk result (λ held. (p : ℕ) (k : Offset) → Holds held p k → ⊥) }
    {
        let Ok(list) = Vec::with_capacity(alloc, MAX_OPERATORS) else {
            return Err(NoMemory);
        };
        Ok(Held {
            places: [0; MAX_OPERATORS],
            list,
        })
    }

    /// The whole shift of the element that is held of the member at a place.
    pub fn shift_at(&self, place: u8) -> Option<Offset>
        requires { place < PLACES }
        ensures { result ≡ slice_index_or self.now place None }
    {
        let after = self.places[usize::from(place)];
        if after == 0 {
            return None;
        }
        Some(self.list[usize::from(after) - 1].shift)
    }

    /// Holds x too.
    pub fn hold(&mut self, x: &Placed)
        requires room { x.now.place < PLACES }
        requires fresh { slice_index_or self.old x.now.place None ≡ None }
        ensures { Puts self.old self.new x.now }
    {
        self.list.push_reserved(*x);
        self.places[usize::from(x.place)] = self.list.len() as u8;
    }
}
