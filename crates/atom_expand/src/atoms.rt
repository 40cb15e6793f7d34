ghost use Rattle.std.specs.Prelude.{◌≡◌, ◌+◌, ◌≤◌, ◌<◌, ◌^◌, Some, IfOk, IfErr, length, slice_get};
ghost use Rattle.triplet_text.specs.Lines.{lines_of};
ghost use Rattle.atom_expand.specs.declared.TheConstants.{MAX_ATOMS};
ghost use Rattle.atom_expand.specs.Sites.{site_in, AreAtomLines, IsAtomFaultOf, atom_fault};

use crate::MAX_ATOMS;
use crate::atom::Atom;
use data_lines::{DataFault, read_data};
use std::alloc::Global;
use std::marker::Model;

/// Why sites could not be read. A line is bad where it is not skipped and writes no site.
#[derive(Clone, Copy, PartialEq, Eq, Debug, Drop)]
pub enum AtomFault {
    /// The first bad line.
    Bad(u32),
    /// No line is bad, and they write more than `MAX_ATOMS` sites.
    Many,
    /// There is no memory for one more.
    NoMemory,
}

/// The sites of an input, at most `MAX_ATOMS`, in their order. It is seen as the list of their labels and points.
#[derive(Drop)]
pub struct AtomList {
    atoms: Vec<Atom>,
}

impl Model for AtomList {
    ghost use Rattle.std.specs.Prelude.{◌≤◌, List, map, vec_len};
    ghost use Rattle.atom_expand.specs.declared.TheConstants.{MAX_ATOMS};
    ghost use Rattle.atom_expand.specs.Sites.{AtomSite, site_in};

    ghost Value = { List AtomSite };

    ghost view = { λ a. map site_in a.atoms.items };

    ghost invariant = { λ a. vec_len a.atoms ≤ MAX_ATOMS };
}

/// The sites of all lines that are not skipped, in order; or the first bad line, counted from `line` on; or that there are too
/// many, which is tested after all lines are seen to be good.
pub fn read_atoms(alloc: Global, bytes: &[u8], line: u32) -> Result<AtomList, AtomFault>
    requires { length bytes.now + line + 1 < 2 ^ 32 }
    ensures ok { IfOk result (AreAtomLines (lines_of bytes.now)) }
    ensures within { IfOk result (λ atoms. length atoms ≤ MAX_ATOMS) }
    ensures fault { IfErr result (IsAtomFaultOf line (lines_of bytes.now)) }
{
    let atoms = read_data::<Atom>(alloc, bytes, line)?;
    if atoms.len() > MAX_ATOMS {
        return Err(AtomFault::Many);
    }
    Ok(AtomList { atoms })
}

impl From<DataFault> for AtomFault {
    ghost from_gives = { λ fault given. given ≡ atom_fault fault };

    fn from(fault: DataFault) -> AtomFault {
        match fault {
            DataFault::Bad(k) => AtomFault::Bad(k),
            DataFault::NoMemory => AtomFault::NoMemory,
        }
    }
}

impl AtomList {
    /// How many sites it has.
    pub fn len(&self) -> u16
        ensures value { result ≡ length self.now }
        ensures within { length self.now ≤ MAX_ATOMS }
    {
        self.atoms.len() as u16
    }

    /// The site at place k, counted from 0.
    pub fn get(&self, k: u16) -> Atom
        requires { k < length self.now }
        ensures { slice_get self.now k ≡ Some (site_in result) }
    {
        self.atoms[usize::from(k)]
    }
}
