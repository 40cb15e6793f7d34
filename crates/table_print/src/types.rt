ghost use Rattle.std.proofs.Common.{rules};
ghost use Rattle.std.specs.Prelude.{◌≡◌, ◌<◌, ◌≤◌, ◌+◌, ◌++◌, Some, drop, length, slice_get};
ghost use Rattle.std.specs.Option.{option_map};
ghost use Rattle.lattice_algebra.specs.Operator.{Operator};
ghost use Rattle.lattice_algebra.specs.Matrix.{column_of};
ghost use Rattle.page_print.specs.declared.page.TheConstants.{PAGE_ROOM};
ghost use Rattle.page_print.specs.Lines.{AreLines, AddsSuch};
ghost use Rattle.page_print.specs.Printing.{Prints};
ghost use Rattle.table_print.specs.Types.{IsTypeLine, AreTypeLines, kind_text, part_text, numbers_text, axis_text};
ghost use Rattle.table_print.specs.declared.types.TheConstants.{TYPE_LINE, KIND_TEXT, PART_TEXT, AXIS_TEXT};

use group_closure::Group;
use itoa::Buffer;
use op_types::parts::Kind;
use op_types::{Frac3, axis, intrinsic, kind};
use page_print::{Listed, Page, print_listed};
use sg_io::{Sink, SinkStop};
use triplet_text::{TEXT_ROOM, print_frac, print_triplet};

/// The most bytes that the kind has: a minus and an order of at most five digits.
const KIND_TEXT: usize = 6;

/// The most bytes that the intrinsic part has: three fractions and two commas.
const PART_TEXT: usize = 3 * TEXT_ROOM + 2;

/// The most bytes that the axis has: three numbers of 32 bits and two commas.
const AXIS_TEXT: usize = 35;

/// The most bytes that a line has: the operator and these, three blanks and the line feed.
pub const TYPE_LINE: usize = TEXT_ROOM + KIND_TEXT + PART_TEXT + AXIS_TEXT + 4;

/// Writes the lines of the command `types`: for each operator of the group, in its order, the operator, its kind, its
/// intrinsic part in fractions of the basis vectors, and its axis. It takes no memory. After an Err a prefix of the lines is
/// written.
pub fn print_types<K: Sink>(group: &Group, sink: &mut K) -> Result<(), SinkStop>
    ensures { Prints K.seen (AreTypeLines group.now) sink.old sink.new result }
{
    print_listed(&TypeLines { group }, sink)
}

/// The lines of the types of the operators of a group.
#[derive(Drop)]
pub struct TypeLines<'a> {
    pub group: &'a Group,
}

impl Listed for TypeLines<'_> {
    ghost texts = { λ lines at. AreLines IsTypeLine (drop at lines.group.now) };

    ghost count = { λ lines. length lines.group.now };

    ghost longest = { TYPE_LINE };

    ghost fits = { Prim.search rules };

    fn len(&self) -> u32 {
        u32::from(self.group.len())
    }

    fn longest_line(&self) -> usize {
        TYPE_LINE
    }

    fn push_line(&self, at: u32, page: &mut Page) {
        prove!(at < self.group.len() as u32);
        push_type(self.group, at as u8, page);
    }
}

fn push_type(group: &Group, i: u8, page: &mut Page)
    requires within { i < length group.now }
    requires room { length page.old + TYPE_LINE ≤ PAGE_ROOM }
    ensures { (f : Operator) → slice_get group.now i ≡ Some f
        → AddsSuch (IsTypeLine f) page.old page.new }
{
    page.push(print_triplet(&group.op(i)).bytes());
    page.push(b" ");
    push_kind(kind(group, i), page);
    page.push(b" ");
    push_part(&intrinsic(group, i), page);
    page.push(b" ");
    push_axis(&axis(group, i), page);
    page.push(b"\n");
}

fn push_kind(kind: Kind, page: &mut Page)
    requires { length page.old + KIND_TEXT ≤ PAGE_ROOM }
    ensures text { page.new ≡ page.old ++ kind_text kind.order kind.proper }
    ensures short { length page.new ≤ length page.old + KIND_TEXT }
{
    if !kind.proper && kind.order == 2 {
        page.push(b"m");
        return;
    }
    if !kind.proper {
        page.push(b"-");
    }
    page.push(Buffer::new().format(kind.order).as_bytes());
}

fn push_part(part: &Frac3, page: &mut Page)
    requires { length page.old + PART_TEXT ≤ PAGE_ROOM }
    ensures text { page.new ≡ page.old ++ part_text (column_of part.now.n) part.now.d }
    ensures short { length page.new ≤ length page.old + PART_TEXT }
{
    let [x, y, z] = part.n;
    let d = i128::from(part.d);
    page.push(print_frac(i128::from(x), d).bytes());
    page.push(b",");
    page.push(print_frac(i128::from(y), d).bytes());
    page.push(b",");
    page.push(print_frac(i128::from(z), d).bytes());
}

fn push_axis(axis: &Option<[i32; 3]>, page: &mut Page)
    requires { length page.old + AXIS_TEXT ≤ PAGE_ROOM }
    ensures text { page.new ≡ page.old ++ axis_text (option_map column_of axis.now) }
    ensures short { length page.new ≤ length page.old + AXIS_TEXT }
{
    match axis {
        Some(along) => push_numbers(along, page),
        None => page.push(b"-"),
    }
}

fn push_numbers(numbers: &[i32; 3], page: &mut Page)
    requires { length page.old + AXIS_TEXT ≤ PAGE_ROOM }
    ensures text { page.new ≡ page.old ++ numbers_text (column_of numbers.now) }
    ensures short { length page.new ≤ length page.old + AXIS_TEXT }
{
    let mut buffer = Buffer::new();
    page.push(buffer.format(numbers[0]).as_bytes());
    page.push(b",");
    page.push(buffer.format(numbers[1]).as_bytes());
    page.push(b",");
    page.push(buffer.format(numbers[2]).as_bytes());
}
