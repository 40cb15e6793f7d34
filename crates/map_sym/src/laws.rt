ghost use Rattle.std.specs.Prelude.{◌≡◌, ◌⊎◌, ℕ, List};
ghost use Rattle.lattice_algebra.specs.Operator.{Operator};
ghost use Rattle.group_closure.specs.GroupList.{IsGroup};
ghost use Rattle.grid_tags.specs.Grids.{Grid, IsGridInRange, IsKept};
ghost use Rattle.map_sym.specs.SummedMaps.{GridValues, SummedMap, AreAllPoints, IsSummedMap, IsOneOnEachOrbit, IsSumOverList};
ghost use Rattle.map_sym.specs.ValueLines.{AreValuesOf, IsFirstBad, IsOtherCount};
ghost use Rattle.map_sym.specs.MapTexts.{IsMapText};

/// Values at the points of a grid that a group keeps have a summed map.
pub fn some_summed_map()
    ensures { (members : List Operator) (given : GridValues) → IsGroup members
        → IsGridInRange given.size → IsKept members given.size
        → (map : SummedMap) × IsSummedMap members given map }
{}

/// They have one only.
pub fn one_summed_map()
    ensures { (members : List Operator) (given : GridValues) (a b : SummedMap) → IsGroup members
        → IsGridInRange given.size → IsKept members given.size → IsSummedMap members given a
        → IsSummedMap members given b → a ≡ b }
{}

/// The sums at two points of one orbit are equal.
pub fn one_sum_of_each_orbit()
    ensures { (members : List Operator) (given : GridValues) (map : SummedMap) → IsGroup members
        → IsGridInRange given.size → IsKept members given.size → IsSummedMap members given map
        → IsOneOnEachOrbit members map.sums }
{}

/// The sums at the points of the grid list have the total as their sum.
pub fn sums_of_grid_list_are_total()
    ensures { (members : List Operator) (given : GridValues) (map : SummedMap) → IsGroup members
        → IsGridInRange given.size → IsKept members given.size → AreAllPoints given
        → IsSummedMap members given map → IsSumOverList members map.sums map.total }
{}

/// Lines write a value for each grid point of a cell, or one of them is the first bad one, or no line is bad and there is another
/// number of values; and never two of these.
pub fn lines_are_values_or_refused()
    ensures some { (first : ℕ) (lines : List (List ℕ)) (grid : Grid)
        → ((given : GridValues) × AreValuesOf lines grid given)
        ⊎ ((k : ℕ) × IsFirstBad first lines k) ⊎ ((n : ℕ) × IsOtherCount lines grid n) }
    ensures values_or_bad { (first : ℕ) (lines : List (List ℕ)) (grid : Grid)
        (given : GridValues) (k : ℕ) → AreValuesOf lines grid given → ¬ IsFirstBad first lines k }
    ensures values_or_count { (lines : List (List ℕ)) (grid : Grid) (given : GridValues) (n : ℕ)
        → AreValuesOf lines grid given → ¬ IsOtherCount lines grid n }
    ensures bad_or_count { (first : ℕ) (lines : List (List ℕ)) (grid : Grid) (k n : ℕ)
        → IsFirstBad first lines k → ¬ IsOtherCount lines grid n }
{}

/// They write one list of values at most, one line is the first bad one at most, and the number of values is one.
pub fn lines_say_one_thing()
    ensures values { (lines : List (List ℕ)) (grid : Grid) (a b : GridValues)
        → AreValuesOf lines grid a → AreValuesOf lines grid b → a ≡ b }
    ensures bad { (first : ℕ) (lines : List (List ℕ)) (j k : ℕ)
        → IsFirstBad first lines j → IsFirstBad first lines k → j ≡ k }
    ensures count { (lines : List (List ℕ)) (grid : Grid) (m n : ℕ)
        → IsOtherCount lines grid m → IsOtherCount lines grid n → m ≡ n }
{}

/// A map in a grid that a group keeps has a text, and one only.
pub fn one_map_text()
    ensures some { (members : List Operator) (map : SummedMap) → IsGroup members
        → IsGridInRange map.sums.size → IsKept members map.sums.size
        → (text : List ℕ) × IsMapText members map text }
    ensures one { (members : List Operator) (map : SummedMap) (s t : List ℕ) → IsGroup members
        → IsGridInRange map.sums.size → IsKept members map.sums.size
        → IsMapText members map s → IsMapText members map t → s ≡ t }
{}
