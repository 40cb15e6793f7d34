ghost use Rattle.std.specs.Int.{IsGcd};

/// The greatest common divisor of two numbers, 0 where both are 0. By Euclid's algorithm.
pub fn greatest_common_divisor(n: u128, d: u128) -> u128
    ensures { IsGcd n d result }
{
    let mut a = n;
    let mut b = d;
    while b > u128::from(u64::MAX) {
        let rest = a % b;
        a = b;
        b = rest;
    }
    if b == 0 {
        return a;
    }
    u128::from(narrow_divisor(b as u64, (a % b) as u64))
}

/// The same of two numbers that the machine divides at once.
fn narrow_divisor(n: u64, d: u64) -> u64
    ensures { IsGcd n d result }
{
    let mut a = n;
    let mut b = d;
    while b != 0 {
        let rest = a % b;
        a = b;
        b = rest;
    }
    a
}
