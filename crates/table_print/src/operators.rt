ghost use Rattle.std.proofs.Common.{rules};
ghost use Rattle.std.specs.Prelude.{◌≡◌, ◌≤◌, ◌+◌, ◌++◌, drop, length};
ghost use Rattle.page_print.specs.declared.page.TheConstants.{PAGE_ROOM};
ghost use Rattle.page_print.specs.Lines.{AreLines, AddsSuch};
ghost use Rattle.page_print.specs.Printing.{Prints};
ghost use Rattle.table_print.specs.Operators.{IsOperatorLine, AreOperatorLines};
ghost use Rattle.table_print.specs.declared.operators.TheConstants.{OPERATOR_LINE};

use exact_ops::Op;
use group_closure::Group;
use page_print::{Listed, Page, print_listed};
use sg_io::{Sink, SinkStop};
use triplet_text::{TEXT_ROOM, print_triplet};

/// The most bytes that the line of an operator has.
pub const OPERATOR_LINE: usize = TEXT_ROOM + 1;

/// Writes the lines of the command `ops`: one for each operator of the group, in its order. It takes no memory. After an
/// Err a prefix of the lines is written.
pub fn print_ops<K: Sink>(group: &Group, sink: &mut K) -> Result<(), SinkStop>
    ensures { Prints K.seen (AreOperatorLines group.now) sink.old sink.new result }
{
    print_listed(&OperatorLines { group }, sink)
}

/// The lines of the operators of a group.
#[derive(Drop)]
pub struct OperatorLines<'a> {
    pub group: &'a Group,
}

impl Listed for OperatorLines<'_> {
    ghost texts = { λ lines at. AreLines IsOperatorLine (drop at lines.group.now) };

    ghost count = { λ lines. length lines.group.now };

    ghost longest = { OPERATOR_LINE };

    ghost fits = { Prim.search rules };

    fn len(&self) -> u32 {
        u32::from(self.group.len())
    }

    fn longest_line(&self) -> usize {
        OPERATOR_LINE
    }

    fn push_line(&self, at: u32, page: &mut Page) {
        prove!(at < self.group.len() as u32);
        push_operator(&self.group.op(at as u8), page);
    }
}

fn push_operator(op: &Op, page: &mut Page)
    requires { length page.old + OPERATOR_LINE ≤ PAGE_ROOM }
    ensures { AddsSuch (IsOperatorLine op.now) page.old page.new }
{
    page.push(print_triplet(op).bytes());
    page.push(b"\n");
}
