ghost use Rattle.std.specs.Prelude.{IfSome, IfNone};
ghost use Rattle.atom_expand.specs.Sites.{AtomSite, IsAtomLine, site_in};

use crate::label::Label;
use data_lines::{Datum, four_fields};
use exact_ops::Point;
use triplet_text::read_point;

/// A labelled site.
#[derive(Clone, Copy, Debug)]
pub struct Atom {
    pub label: Label,
    pub at: Point,
}

/// The site that a data line writes: a label and three coordinates, separated by blanks. None exactly where the line is no such
/// line.
pub fn read_atom(line: &[u8]) -> Option<Atom>
    ensures some { IfSome result (λ atom. IsAtomLine line.now (site_in atom)) }
    ensures none { IfNone result ((site : AtomSite) → IsAtomLine line.now site → ⊥) }
{
    let (label, x, y, z) = four_fields(line)?;
    let label = Label::of(label)?;
    let at = read_point(x, y, z)?;
    Some(Atom { label, at })
}

impl Datum for Atom {
    ghost is = { λ line atom. IsAtomLine line (site_in atom) };

    fn read(line: &[u8]) -> Option<Atom> {
        read_atom(line)
    }
}
