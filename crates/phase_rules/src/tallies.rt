ghost use Rattle.std.specs.Prelude.{◌≡◌, ◌<◌, ◌≤◌, ◌↔◌, ◌++◌, ◌∷◌, [], pos, negsuc, ℕ, List, length, take, slice_index_or, IsTrue};
ghost use Rattle.std.specs.Int.{int_rem_euclid};
ghost use Rattle.lattice_algebra.specs.Matrix.{identity, scaled};
ghost use Rattle.lattice_algebra.specs.Operator.{Operator};
ghost use Rattle.group_closure.specs.declared.TheConstants.{MAX_OPERATORS};
ghost use Rattle.group_closure.specs.Runs.{IsFirstWith};
ghost use Rattle.phase_rules.specs.Halves.{HaveOpposites};
ghost use Rattle.phase_rules.specs.Rows.{Row, row_of, ◌·ʳ◌, neg_row};
ghost use Rattle.phase_rules.specs.Equivalent.{IsClass};
ghost use Rattle.phase_rules.specs.Marks.{phase_shift, IsMark};
ghost use Rattle.phase_rules.specs.Tallies.{IsTurn, AreTurned, IsTally};

use crate::index::Index;
use crate::pairs::Pairs;
use crate::parts::Mark;
use exact_ops::{Op, UNIT};
use group_closure::Group;

/// What a rotation part does to an index.
#[derive(Clone, Copy, PartialEq, Eq, Debug, Drop)]
pub struct Turn {
    /// Whether h W = h.
    pub fixes: bool,
    /// Whether h W = -h.
    pub reverses: bool,
}

impl Turn {
    /// What it does where it takes the index to this image.
    pub fn of(index: &Index, image: &[i32; 3]) -> Turn
        ensures { IsTurn index.now (row_of image.now) result }
    {
        Turn {
            fixes: is_row(image, index.h, index.k, index.l),
            reverses: is_row(image, -index.h, -index.k, -index.l),
        }
    }
}

fn is_row(a: &[i32; 3], h: i32, k: i32, l: i32) -> bool
    ensures { IsTrue result ↔ ((slice_index_or a.now 0 (pos 0) ≡ h)
        × (slice_index_or a.now 1 (pos 0) ≡ k) × (slice_index_or a.now 2 (pos 0) ≡ l)) }
{
    a[0] == h && a[1] == k && a[2] == l
}

/// What some members of a group do to one index.
#[derive(Clone, Copy, PartialEq, Eq, Debug, Drop)]
pub struct Tally {
    /// How many have h W = h.
    pub fixers: u16,
    /// How many have h W = -h.
    pub reversers: u16,
    /// Whether one that has h W = h shifts the phase.
    pub shifted: bool,
    /// The phase shift h.t of one that has h W = -h, in parts of a cell and from 0 to below `UNIT`, where there is one.
    pub phase: u8,
}

impl Tally {
    /// That of no members.
    pub fn none() -> Tally
        ensures { (h : Row) → IsTally [] h result }
    {
        Tally {
            fixers: 0,
            reversers: 0,
            shifted: false,
            phase: 0,
        }
    }

    /// One more member, whose rotation part does this to the index.
    pub fn add(&mut self, index: &Index, op: &Op, turn: Turn)
        requires turn { IsTurn index.now (index.now ·ʳ op.now.w) turn }
        requires fixers { self.old.fixers < MAX_OPERATORS }
        requires reversers { self.old.reversers < MAX_OPERATORS }
        ensures { (members : List Operator) → IsTally members index.now self.old
            → IsTally (members ++ op.now ∷ []) index.now self.new }
    {
        if turn.fixes {
            self.fixers += 1;
            if phase_of(index, op) != 0 {
                self.shifted = true;
            }
        }
        if turn.reverses {
            self.reversers += 1;
            self.phase = phase_of(index, op);
        }
    }

    /// The members from `start` to before `end`, whose rotation parts all do this to the index. Where they neither fix it nor turn
    /// it round, none of them is asked.
    pub fn add_run(&mut self, group: &Group, index: &Index, start: u8, end: u8, turn: Turn)
        requires order { start ≤ end }
        requires within { end ≤ length group.now }
        requires turn { AreTurned group.now index.now start end turn }
        requires tally { IsTally (take start group.now) index.now self.old }
        ensures { IsTally (take end group.now) index.now self.new }
    {
        if turn.fixes || turn.reverses {
            self.add_members(group, index, start, end, turn);
        }
    }

    /// The same, where each of them is asked.
    fn add_members(&mut self, group: &Group, index: &Index, start: u8, end: u8, turn: Turn)
        requires order { start ≤ end }
        requires within { end ≤ length group.now }
        requires turn { AreTurned group.now index.now start end turn }
        requires tally { IsTally (take start group.now) index.now self.old }
        ensures { IsTally (take end group.now) index.now self.new }
    {
        for i in start..end {
            self.add(index, &group.op(i), turn);
        }
    }

    /// That of all members. A rotation part is asked once for its run.
    pub fn of(group: &Group, index: &Index) -> Tally
        ensures { IsTally group.now index.now result }
    {
        let order = group.len() as u8;
        let mut tally = Tally::none();
        let mut i = 0;
        while i < order {
            let turn = Turn::of(index, &index.times(&group.op(i).w()));
            let end = group.run_end(i);
            tally.add_run(group, index, i, end, turn);
            i = end;
        }
        tally
    }

    /// That of all members, from that of the first of them, where each later one has the opposite matrix of one of these. The member
    /// at `inversion` has the matrix -1.
    pub fn with_opposites(&self, group: &Group, index: &Index, inversion: u8) -> Tally
        requires inversion { IsFirstWith group.now (scaled (negsuc 0) identity) inversion }
        requires first { (i : ℕ) × HaveOpposites group.now i
            × IsTally (take i group.now) index.now self.now }
        ensures { IsTally group.now index.now result }
    {
        if 0 < self.reversers {
            return Tally::of(group, index);
        }
        Tally {
            fixers: self.fixers,
            reversers: self.fixers,
            shifted: self.shifted,
            phase: phase_of(index, &group.op(inversion)),
        }
    }

    /// The mark of the index, from the tally of all members.
    pub fn mark(&self, pairs: Pairs) -> Mark
        ensures { (members : List Operator) (h : Row) → IsTally members h self.now
            → IsMark pairs members h result }
    {
        if self.shifted {
            return Mark::Absent;
        }
        match pairs {
            Pairs::Friedel if 0 < self.reversers => Mark::Phase(self.phase),
            _ => Mark::Free,
        }
    }

    /// How many indices are equivalent to the index, from the tally of all members: orbit and stabilizer.
    pub fn class_size(&self, group: &Group, pairs: Pairs) -> u16
        requires { (h : Row) × IsTally group.now h self.now }
        ensures { (h : Row) (class : List Row) → IsTally group.now h self.now
            → IsClass pairs group.now h class → result ≡ length class }
    {
        match pairs {
            Pairs::Friedel => 2 * group.len() / (self.fixers + self.reversers),
            Pairs::Apart => group.len() / self.fixers,
        }
    }
}

/// How far the phase of h W is behind that of the index h, in parts of a cell.
fn phase_of(index: &Index, op: &Op) -> u8
    ensures { phase_shift index.now op.now ≡ pos result }
{
    index.along(&op.t()).rem_euclid(UNIT as i32) as u8
}
