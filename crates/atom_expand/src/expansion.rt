ghost use Rattle.std.specs.Prelude.{◌≡◌, ◌<◌, ◌≤◌, ◌↔◌, Some, IsTrue, IfSome, IfNone, IfOk, length, slice_get};
ghost use Rattle.std.specs.List.{All};
ghost use Rattle.space_groups.specs.Space.{IsInCell};
ghost use Rattle.exact_ops.specs.Numbers.{point_in};
ghost use Rattle.atom_expand.specs.declared.TheConstants.{MAX_ATOMS};
ghost use Rattle.atom_expand.specs.Expansions.{IsExpansion, HasOrbit, OfOrbit, same_at};
ghost use Rattle.atom_expand.specs.Steps.{BeginsInCell, BeginsWith, IfFirst, IsFirstAnd, NoneIs, IsAt, IsEntryFor, IsSameWithin};

use crate::atoms::AtomList;
use crate::same::is_same_point;
use exact_ops::{NoMemory, Point};
use group_closure::Group;
use orbit_map::orbit;
use orbit_map::parts::Orbit;
use std::alloc::Global;
use std::marker::Model;

/// What a site is expanded to.
#[derive(Drop)]
pub enum Expanded {
    /// No earlier site has its orbit, whose points these are.
    First(Orbit),
    /// The first site that has its orbit, by its place, counted from 0.
    Same(u16),
}

/// What each site of a list is expanded to, in their order.
#[derive(Drop)]
pub struct Expansion {
    entries: Vec<Expanded>,
}

impl Model for Expansion {
    ghost use Rattle.std.specs.Prelude.{List, vec_len, ◌≤◌};
    ghost use Rattle.atom_expand.specs.declared.TheConstants.{MAX_ATOMS};
    ghost use Rattle.atom_expand.specs.declared.expansion.Expanded.{Expanded as Entry};
    ghost use Rattle.atom_expand.specs.Steps.{AreLinked};

    ghost Value = { List Entry };

    ghost view = { λ a. a.entries.items };

    ghost invariant = { λ a. (vec_len a.entries ≤ MAX_ATOMS) × AreLinked a.entries.items };
}

/// The points of the orbit of each site, or the first site that has this orbit.
pub fn expand(alloc: Global, group: &Group, atoms: &AtomList) -> Result<Expansion, NoMemory>
    ensures { IfOk result (IsExpansion group.now atoms.now) }
{
    let Ok(mut entries) = Vec::with_capacity(alloc, usize::from(atoms.len())) else {
        return Err(NoMemory);
    };
    // So each orbit has a point.
    let members = group.len();
    prove!(members > 0);
    for k in 0..atoms.len() {
        let orbit = orbit(alloc, group, &atoms.get(k).at)?;
        let entry = entry_of(&entries, orbit);
        entries.push_reserved(entry);
    }
    Ok(Expansion { entries })
}

/// What a site with this orbit is expanded to, behind the others.
fn entry_of(entries: &[Expanded], orbit: Orbit) -> Expanded
    requires few { length entries.now ≤ MAX_ATOMS }
    requires others { All (IfFirst BeginsInCell) entries.now }
    requires orbit { BeginsInCell orbit }
    ensures { IsEntryFor entries.now orbit result }
{
    match first_with(entries, &orbit.get(0)) {
        Some(j) => Expanded::Same(j),
        None => Expanded::First(orbit),
    }
}

/// The place of an orbit that begins with this point.
fn first_with(entries: &[Expanded], least: &Point) -> Option<u16>
    requires few { length entries.now ≤ MAX_ATOMS }
    requires others { All (IfFirst BeginsInCell) entries.now }
    requires in_cell { IsInCell (point_in least.now) }
    ensures some { IfSome result (IsAt (IsFirstAnd (BeginsWith (point_in least.now))) entries.now) }
    ensures none { IfNone result (NoneIs (IsFirstAnd (BeginsWith (point_in least.now))) entries.now) }
{
    for (j, entry) in entries.iter().enumerate() {
        if begins_with(entry, least) {
            return Some(j as u16);
        }
    }
    None
}

/// Whether there are points under a site that begin with this one.
fn begins_with(entry: &Expanded, least: &Point) -> bool
    requires entry { IfFirst BeginsInCell entry.now }
    requires in_cell { IsInCell (point_in least.now) }
    ensures { IsTrue result ↔ IsFirstAnd (BeginsWith (point_in least.now)) entry.now }
{
    match entry {
        Expanded::First(orbit) => is_same_point(&orbit.get(0), least),
        Expanded::Same(_) => false,
    }
}

impl Expansion {
    /// How many sites it has.
    pub fn len(&self) -> u16
        ensures value { result ≡ length self.now }
        ensures within { length self.now ≤ MAX_ATOMS }
    {
        self.entries.len() as u16
    }

    /// What the site at place k is expanded to. Where it has the orbit of an earlier site, that is in the list.
    pub(crate) fn entry(&self, k: u16) -> &Expanded
        requires { k < length self.now }
        ensures value { slice_get self.now k ≡ Some result.now }
        ensures within { IsSameWithin MAX_ATOMS result.now }
    {
        &self.entries[usize::from(k)]
    }

    /// The place of the first site with the orbit of the site at place k, where that is an earlier one.
    pub fn same(&self, k: u16) -> Option<u16>
        requires { k < length self.now }
        ensures { result ≡ same_at (slice_get self.now k) }
    {
        match &self.entries[usize::from(k)] {
            Expanded::First(_) => None,
            Expanded::Same(j) => Some(*j),
        }
    }

    /// How many points the orbit of the site at place k has in the cell.
    pub fn mult(&self, k: u16) -> u16
        requires { k < length self.now }
        ensures { OfOrbit self.now k (λ points. result ≡ length points) }
    {
        self.orbit_of(k).len()
    }

    /// The point at place j of the orbit of the site at place k.
    pub fn point(&self, k: u16, j: u16) -> Point
        requires within { k < length self.now }
        requires point { OfOrbit self.now k (λ points. j < length points) }
        ensures { OfOrbit self.now k (λ points. slice_get points j ≡ Some (point_in result)) }
    {
        self.orbit_of(k).get(j)
    }

    /// The orbit of the site at place k.
    fn orbit_of(&self, k: u16) -> &Orbit
        requires { k < length self.now }
        ensures { HasOrbit self.now k result.now }
    {
        match &self.entries[usize::from(k)] {
            Expanded::First(orbit) => orbit,
            Expanded::Same(j) => match &self.entries[usize::from(*j)] {
                Expanded::First(orbit) => orbit,
                Expanded::Same(_) => unreachable!(),
            },
        }
    }
}
