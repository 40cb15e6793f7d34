//! The order of rows: lexicographic, as that of arrays, but with no loop, since most rows differ in their first number.
ghost use Rattle.std.specs.Prelude.{◌≡◌};
ghost use Rattle.std.specs.Ordering.{int_cmp, ord_max};
ghost use Rattle.std.specs.Cmp.Lexicographic.{slice_cmp};

use std::cmp::Ordering;

pub fn compare_rows(a: &[i32; 3], b: &[i32; 3]) -> Ordering
    ensures { result ≡ slice_cmp int_cmp a.now b.now }
{
    if a[0] != b[0] {
        return a[0].cmp(&b[0]);
    }
    if a[1] != b[1] {
        return a[1].cmp(&b[1]);
    }
    a[2].cmp(&b[2])
}

pub fn greater(a: &[i32; 3], b: &[i32; 3]) -> [i32; 3]
    ensures { result ≡ ord_max (slice_cmp int_cmp) a.now b.now }
{
    if compare_rows(b, a).is_lt() { *a } else { *b }
}
