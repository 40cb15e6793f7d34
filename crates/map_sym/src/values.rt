ghost use Rattle.std.specs.Prelude.{◌≡◌, length};
ghost use Rattle.grid_tags.specs.Grids.{IsInGrid, points, triple_of};
ghost use Rattle.map_sym.specs.SummedMaps.{value_at, AreAllPoints};

use grid_tags::GridSize;
use std::marker::Model;

/// A value for each grid point of a cell, in ascending order of the points.
#[derive(Drop)]
pub struct Values {
    size: GridSize,
    values: Vec<i32>,
}

impl Model for Values {
    ghost use Rattle.map_sym.specs.SummedMaps.{GridValues, AreAllPoints};

    ghost Value = { GridValues };

    ghost view = { λ v. record { size = v.size; values = v.values.items } };

    ghost invariant = { λ v. AreAllPoints (record { size = v.size; values = v.values.items }) };
}

impl Values {
    /// These values, as many as the grid has points in a cell.
    pub fn of(size: &GridSize, values: Vec<i32>) -> Values
        requires { length values.items ≡ points size.now }
        ensures { result ≡ record { size = size.now; values = values.items } }
    {
        Values {
            size: *size,
            values,
        }
    }

    /// The value at a grid point of the cell.
    pub fn at(&self, at: [u16; 3]) -> i32
        requires { IsInGrid self.now.size (triple_of at) }
        ensures { result ≡ value_at self.now (triple_of at) }
    {
        self.values[self.size.place(&at)]
    }

    /// All values.
    pub fn values(&self) -> &[i32]
        ensures value { result.now ≡ self.now.values }
        // What is true of all values.
        ensures all { AreAllPoints self.now }
    {
        &self.values
    }
}
