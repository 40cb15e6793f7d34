//! What a handle holds: a group, and its rows from the first time on that they were asked for.
ghost use Rattle.std.specs.Prelude.{◌≡◌, IfOk};
ghost use Rattle.exact_ops.specs.declared.TheConstants.{UNIT};
ghost use Rattle.space_groups.specs.Rows.{IsRowList};

use exact_ops::NoMemory;
use group_closure::Group;
use std::alloc::Global;
use std::marker::Model;
use wyckoff_rows::parts::Rows;
use wyckoff_rows::rows;

/// A group, and its rows where they are known. It is seen as the list of the members.
#[derive(Drop)]
pub struct Kept {
    group: Group,
    rows: Option<Rows>,
}

impl Model for Kept {
    ghost use Rattle.std.specs.Prelude.{List, IfSome};
    ghost use Rattle.lattice_algebra.specs.Operator.{Operator};
    ghost use Rattle.exact_ops.specs.declared.TheConstants.{UNIT};
    ghost use Rattle.space_groups.specs.Rows.{IsRowList};

    ghost Value = { List Operator };

    ghost view = { λ a. a.group };

    ghost invariant = { λ a. IfSome a.rows (IsRowList UNIT a.group) };
}

impl Kept {
    /// The group, whose rows are not known.
    pub fn new(group: Group) -> Kept
        ensures { result ≡ group }
    {
        Kept { group, rows: None }
    }

    pub fn group(&self) -> &Group
        ensures { result.now ≡ self.now }
    {
        &self.group
    }

    /// The rows of the group, which are then the caller's.
    pub fn take_rows(&mut self, alloc: Global) -> Result<Rows, NoMemory>
        ensures rows { IfOk result (IsRowList UNIT self.old) }
        ensures same { self.new ≡ self.old }
    {
        match self.rows.take() {
            Some(known) => Ok(known),
            None => rows(alloc, &self.group),
        }
    }

    /// Gives the rows back, so that they are not asked for again.
    pub fn put_rows(&mut self, known: Rows)
        requires { IsRowList UNIT self.old known }
        ensures { self.new ≡ self.old }
    {
        self.rows = Some(known);
    }
}
