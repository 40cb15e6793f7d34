use crate::groups::{CUBIC, HEXAGONAL, group_of};
use op_types::kind;
use op_types::parts::Kind;
use std::test::Fail;

/// The classical table: the order by the trace of a proper matrix, and by the opposite trace of one that is not.
fn by_trace(w: &[i32; 9]) -> Option<Kind> {
    let [a, b, c, d, e, f, g, h, i] = *w;
    let first = a.wrapping_mul(minor(e, i, f, h));
    let second = b.wrapping_mul(minor(d, i, f, g));
    let third = c.wrapping_mul(minor(d, h, e, g));
    let proper = first.wrapping_sub(second).wrapping_add(third) == 1;
    let trace = a.wrapping_add(e).wrapping_add(i);
    let order = match if proper { trace } else { trace.wrapping_neg() } {
        3 => 1,
        -1 => 2,
        0 => 3,
        1 => 4,
        2 => 6,
        _ => return None,
    };
    Some(Kind { order, proper })
}

fn minor(p: i32, q: i32, r: i32, s: i32) -> i32 {
    p.wrapping_mul(q).wrapping_sub(r.wrapping_mul(s))
}

/// Every operator of F m -3 m and of P 6/m m m.
#[test]
fn kinds_are_those_of_the_classical_table(rt: HostRuntime) -> Result<(), Fail> {
    let groups = [
        (group_of(rt.alloc(), &CUBIC)?, 192),
        (group_of(rt.alloc(), &HEXAGONAL)?, 24),
    ];
    for (group, len) in &groups {
        assert_eq!(rt; group.len(), *len);
        for i in 0..group.len() {
            let found = kind(group, i as u8);
            assert_eq!(rt; Some(found), by_trace(&group.op(i as u8).w()), "at {i}");
        }
    }
    Ok(())
}
