ghost use Rattle.std.specs.Prelude.{◌≡◌, ◌≢◌, ◌↔◌, None, IfSome, IsSome, List, length};
ghost use Rattle.lattice_algebra.specs.Map.{Map};
ghost use Rattle.lattice_algebra.specs.Operator.{AreWithin};
ghost use Rattle.lattice_algebra.specs.Point as rational;
ghost use Rattle.exact_ops.specs.declared.TheConstants.{UNIT};
ghost use Rattle.exact_ops.specs.Numbers.{point_in};
ghost use Rattle.exact_ops.specs.Points.{AreCoordinatesInRange, HasCoordinates};
ghost use Rattle.space_groups.specs.Lists.{IsSiteList, IsOrbitList};
ghost use Rattle.phase_rules.specs.declared.TheConstants.{MAX_INDEX};
ghost use Rattle.sg_c.specs.Arrays.{IsEachAnswered};
ghost use Rattle.sg_c.specs.Questions.{IsMarkedAs, IsReflection, IsReflectionAt, IsIndexInRange, IsKeyAt, IsSite, IsSiteAt, IsPointInRange, pairs_in, pairs_of};
ghost use Rattle.sg_c.specs.declared.TheConstants.{OUT_OF_RANGE, EMPTY};

use crate::arrays::{Asking, ask_each};
use crate::handle::Handle;
use crate::{EMPTY, OUT_OF_RANGE};
use exact_ops::Point;
use group_closure::Group;
use orbit_map::multiplicity;
use phase_rules::parts::Mark;
use phase_rules::tallies::Tally;
use phase_rules::{Index, Pairs};
use refl_merge::class_key;
use site_symmetry::order_at;
use std::alloc::Global;

/// A reflection with any phase.
const FREE: u8 = 0;

/// A reflection whose phase is restricted.
const RESTRICTED: u8 = 1;

/// A systematically absent reflection.
const ABSENT: u8 = 2;

/// The three numbers of an index, in range or not.
#[repr(C)]
#[derive(Clone, Copy)]
pub struct IndexNumbers {
    pub h: i32,
    pub k: i32,
    pub l: i32,
}

/// What symmetry says of a reflection: the size of its class, how many operators (W, t) have h W = h, and whether it is absent
/// or restricted. The phase of a restricted one is so many times 180 / `UNIT` degrees, or 180 degrees further; otherwise it is 0.
#[repr(C)]
#[derive(Clone, Copy)]
pub struct Reflection {
    pub class_size: u16,
    pub fixers: u16,
    pub mark: u8,
    pub phase: u8,
}

/// A fraction: a numerator and a denominator.
#[repr(C)]
#[derive(Clone, Copy)]
pub struct Fraction {
    pub n: i64,
    pub d: i64,
}

/// A point by its coordinates, parts of a cell.
#[repr(C)]
#[derive(Clone, Copy)]
pub struct Coordinates {
    pub x: Fraction,
    pub y: Fraction,
    pub z: Fraction,
}

/// The order of the site-symmetry group of a point, and how many points its orbit has in a cell.
#[repr(C)]
#[derive(Clone, Copy)]
pub struct Site {
    pub order: u16,
    pub multiplicity: u16,
}

fn symmetry_of(group: &Group, index: &Index, pairs: Pairs) -> Reflection
    ensures { IsReflection pairs group.now index.now result }
{
    let tally = Tally::of(group, index);
    let (mark, phase) = code_of(tally.mark(pairs));
    Reflection {
        class_size: tally.class_size(group, pairs),
        fixers: tally.fixers,
        mark,
        phase,
    }
}

fn code_of(mark: Mark) -> (u8, u8)
    ensures { IsMarkedAs mark result.0 result.1 }
{
    match mark {
        Mark::Free => (FREE, 0),
        Mark::Phase(phase) => (RESTRICTED, phase),
        Mark::Absent => (ABSENT, 0),
    }
}

pub fn pairs_of(friedel: bool) -> Pairs
    ensures { result ≡ pairs_of friedel }
{
    if friedel {
        Pairs::Friedel
    } else {
        Pairs::Apart
    }
}

/// Writes what symmetry says of the reflection, with Friedel's law where it is asked for.
#[unsafe(no_mangle)]
pub extern "C" fn sg_reflection(
    alloc: Global,
    group: &mut Handle,
    h: i32,
    k: i32,
    l: i32,
    friedel: bool,
    reflection: &mut Reflection,
) -> u8
    ensures range { (result ≡ OUT_OF_RANGE) ↔ (AreWithin MAX_INDEX h k l → ⊥) }
    ensures empty { result ≡ EMPTY → group.old.group ≡ None }
    ensures value { result ≡ 0 → IfSome group.old.group (λ members.
        IsReflection (pairs_of friedel) members
        (record { h = h; k = k; l = l }) reflection.new) }
    ensures held { group.old.group ≡ None → result ≢ 0 }
    ensures otherwise { result ≢ 0 → result ≢ OUT_OF_RANGE → result ≡ EMPTY }
    ensures unwritten { result ≢ 0 → reflection.new ≡ reflection.old }
    ensures same { group.new.group ≡ group.old.group }
{
    let Some(index) = Index::of(h, k, l) else {
        return OUT_OF_RANGE;
    };
    let pairs = pairs_of(friedel);
    let Some(held) = group.take(alloc) else {
        return EMPTY;
    };
    *reflection = symmetry_of(held.group(), &index, pairs);
    group.put(held);
    0
}

/// Asks what symmetry says of reflections.
#[derive(Clone, Copy)]
struct AskReflection {
    pairs: Pairs,
}

impl Asking for AskReflection {
    type Question = IndexNumbers;

    type Answer = Reflection;

    ghost can_ask = { IsIndexInRange };

    ghost is_answer = { λ asking members index r. IsReflectionAt asking.pairs members index r };

    fn can_ask(index: &IndexNumbers) -> bool {
        Index::of(index.h, index.k, index.l).is_some()
    }

    fn answer(&self, group: &Group, index: &IndexNumbers) -> Reflection {
        let IndexNumbers { h, k, l } = *index;
        symmetry_of(group, &Index { h, k, l }, self.pairs)
    }
}

/// Writes what symmetry says of each reflection at its place, with Friedel's law where it is asked for.
#[unsafe(no_mangle)]
pub extern "C" fn sg_reflections(
    alloc: Global,
    group: &mut Handle,
    friedel: bool,
    indices: &[IndexNumbers],
    reflections: &mut [Reflection],
    bad: &mut usize,
) -> u8
    ensures answered { IsEachAnswered IsIndexInRange (IsReflectionAt (pairs_of friedel))
        group.old.group indices.now reflections.old reflections.new bad.old bad.new result }
    ensures same { group.new.group ≡ group.old.group }
{
    let asking = AskReflection {
        pairs: pairs_of(friedel),
    };
    ask_each(alloc, group, &asking, indices, reflections, bad)
}

/// The point with these coordinates. None exactly where they are out of range.
pub fn point_of(point: &Coordinates) -> Option<Point>
    ensures some { IsSome result ↔ AreCoordinatesInRange (pairs_in point.now) }
    ensures value { IfSome result (λ p. HasCoordinates (pairs_in point.now) (point_in p)) }
{
    let Coordinates { x, y, z } = *point;
    Point::of_coords([(x.n, x.d), (y.n, y.d), (z.n, z.d)])
}

fn site_of(group: &Group, point: &Point) -> Site
    ensures order { (list : List Map)
        → IsSiteList UNIT group.now (point_in point.now) list → result.order ≡ length list }
    ensures multiplicity { (list : List rational.Point)
        → IsOrbitList UNIT group.now (point_in point.now) list
        → result.multiplicity ≡ length list }
{
    Site {
        order: order_at(group, point),
        multiplicity: multiplicity(group, point),
    }
}

/// Asks for the classes of reflections.
#[derive(Clone, Copy)]
pub struct AskKey {
    pub pairs: Pairs,
}

impl Asking for AskKey {
    type Question = IndexNumbers;

    type Answer = IndexNumbers;

    ghost can_ask = { IsIndexInRange };

    ghost is_answer = { λ asking members index key. IsKeyAt asking.pairs members index key };

    fn can_ask(index: &IndexNumbers) -> bool {
        Index::of(index.h, index.k, index.l).is_some()
    }

    fn answer(&self, group: &Group, index: &IndexNumbers) -> IndexNumbers {
        let IndexNumbers { h, k, l } = *index;
        let [h, k, l] = class_key(group, &Index { h, k, l }, self.pairs);
        IndexNumbers { h, k, l }
    }
}

/// Writes the greatest index that is equivalent to each, at its place, with Friedel's law where it is asked for.
#[unsafe(no_mangle)]
pub extern "C" fn sg_class_keys(
    alloc: Global,
    group: &mut Handle,
    friedel: bool,
    indices: &[IndexNumbers],
    keys: &mut [IndexNumbers],
    bad: &mut usize,
) -> u8
    ensures answered { IsEachAnswered IsIndexInRange (IsKeyAt (pairs_of friedel))
        group.old.group indices.now keys.old keys.new bad.old bad.new result }
    ensures same { group.new.group ≡ group.old.group }
{
    let asking = AskKey {
        pairs: pairs_of(friedel),
    };
    ask_each(alloc, group, &asking, indices, keys, bad)
}

/// Writes the order of the site-symmetry group of the point and how many points its orbit has in a cell.
#[unsafe(no_mangle)]
pub extern "C" fn sg_site(
    alloc: Global,
    group: &mut Handle,
    point: &Coordinates,
    site: &mut Site,
) -> u8
    ensures range { (result ≡ OUT_OF_RANGE)
        ↔ (AreCoordinatesInRange (pairs_in point.now) → ⊥) }
    ensures empty { result ≡ EMPTY → group.old.group ≡ None }
    ensures value { result ≡ 0 → IfSome group.old.group (λ members.
        IsSite members (pairs_in point.now) site.new) }
    ensures held { group.old.group ≡ None → result ≢ 0 }
    ensures otherwise { result ≢ 0 → result ≢ OUT_OF_RANGE → result ≡ EMPTY }
    ensures unwritten { result ≢ 0 → site.new ≡ site.old }
    ensures same { group.new.group ≡ group.old.group }
{
    let Some(point) = point_of(point) else {
        return OUT_OF_RANGE;
    };
    let Some(held) = group.take(alloc) else {
        return EMPTY;
    };
    *site = site_of(held.group(), &point);
    group.put(held);
    0
}

/// Asks about the site symmetry of points.
#[derive(Clone, Copy)]
struct AskSite;

impl Asking for AskSite {
    type Question = Coordinates;

    type Answer = Site;

    ghost can_ask = { IsPointInRange };

    ghost is_answer = { λ asking. IsSiteAt };

    fn can_ask(point: &Coordinates) -> bool {
        point_of(point).is_some()
    }

    fn answer(&self, group: &Group, point: &Coordinates) -> Site {
        site_of(group, &point_of(point).unwrap())
    }
}

/// Writes the order of the site-symmetry group of each point, and how many points its orbit has in a cell, at its place.
#[unsafe(no_mangle)]
pub extern "C" fn sg_sites(
    alloc: Global,
    group: &mut Handle,
    points: &[Coordinates],
    sites: &mut [Site],
    bad: &mut usize,
) -> u8
    ensures answered { IsEachAnswered IsPointInRange IsSiteAt
        group.old.group points.now sites.old sites.new bad.old bad.new result }
    ensures same { group.new.group ≡ group.old.group }
{
    ask_each(alloc, group, &AskSite, points, sites, bad)
}
