ghost use Rattle.std.specs.Prelude.{◌≡◌, ◌≤◌, ◌<ℤ◌, ◌↔◌, ◌*◌, ◌*ℤ◌, ◌^◌, ℤ, pos, unsigned_abs, IsSome, IfSome};
ghost use Rattle.std.specs.Int.{int_rem_euclid};
ghost use Rattle.exact_ops.specs.declared.TheConstants.{UNIT as PARTS};
ghost use Rattle.basis_change.specs.Wide.{WIDE};

use exact_ops::UNIT;

/// n / k, where it is whole.
pub fn quotient(n: i64, k: i64) -> Option<i64>
    requires positive { pos 0 <ℤ k }
    requires small { unsigned_abs n ≤ 3 * (WIDE * WIDE) }
    ensures some { IsSome result ↔ ((q : ℤ) × (k *ℤ q ≡ n)) }
    ensures value { IfSome result (λ q. k *ℤ q ≡ n) }
    ensures size { IfSome result (λ q. unsigned_abs q ≤ 3 * (WIDE * WIDE)) }
{
    if n % k != 0 {
        return None;
    }
    Some(n / k)
}

/// A number modulo the cell.
pub fn part(n: i64) -> i32
    ensures { result ≡ int_rem_euclid n (pos PARTS) }
{
    n.rem_euclid(i64::from(UNIT)) as i32
}
