//! Remainders of numbers that are mostly less than the divisor in size: by one step, since a division takes longer.
ghost use Rattle.std.specs.Prelude.{◌≡◌, ◌≤◌, ◌<◌, ◌*◌, ℤ, pos, ◌+ℤ◌, ◌*ℤ◌, ◌≤ℤ◌, unsigned_abs};
ghost use Rattle.std.specs.Int.{int_rem_euclid};
ghost use Rattle.grid_tags.specs.declared.TheConstants.{MAX_SIDE};
ghost use Rattle.grid_tags.specs.Grids.{IsSide};

/// The remainder of a number by n.
pub fn reduced(value: i32, n: u16) -> u16
    requires side { IsSide n }
    requires size { unsigned_abs value ≤ 12 * MAX_SIDE * MAX_SIDE }
    ensures value { result ≡ unsigned_abs (int_rem_euclid value (pos n)) }
    ensures within { result < n }
{
    let n = i32::from(n);
    let near = raised(value, n);
    if near < 0 || n <= near {
        return value.rem_euclid(n) as u16;
    }
    near as u16
}

/// The number, or n more where it is below zero.
fn raised(value: i32, n: i32) -> i32
    requires side { (pos 1 ≤ℤ n) × (n ≤ℤ pos MAX_SIDE) }
    requires size { unsigned_abs value ≤ 12 * MAX_SIDE * MAX_SIDE }
    ensures { (k : ℤ) × (result ≡ value +ℤ n *ℤ k) }
{
    if value < 0 { value + n } else { value }
}
