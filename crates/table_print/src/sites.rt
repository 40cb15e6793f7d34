ghost use Rattle.std.proofs.Common.{rules};
ghost use Rattle.std.specs.Prelude.{◌≡◌, ◌≤◌, ◌+◌, ◌++◌, drop, length};
ghost use Rattle.exact_ops.specs.Numbers.{point_in};
ghost use Rattle.exact_ops.specs.Elements.{map_in};
ghost use Rattle.page_print.specs.declared.page.TheConstants.{PAGE_ROOM};
ghost use Rattle.page_print.specs.Lines.{AreLines, AddsSuch};
ghost use Rattle.page_print.specs.Printing.{Prints};
ghost use Rattle.table_print.specs.Sites.{counts_text, IsElementLine, IsPointLine, IsSiteText};
ghost use Rattle.table_print.specs.declared.sites.TheConstants.{COUNTS_TEXT, ELEMENT_LINE, POINT_LINE};

use exact_ops::{Move, Point};
use itoa::Buffer;
use orbit_map::parts::Orbit;
use page_print::{Listed, Page, make_room, put_listed, put_page};
use sg_io::{Sink, SinkStop};
use site_symmetry::parts::Site;
use triplet_text::{TEXT_ROOM, print_frac, print_move};

/// The most bytes that the two counts have, with their words and line feeds.
const COUNTS_TEXT: usize = 31;

/// The most bytes that the line of an element has.
const ELEMENT_LINE: usize = 4 + TEXT_ROOM + 1;

/// The most bytes that the line of a point has.
const POINT_LINE: usize = 3 + 3 * TEXT_ROOM + 3;

/// Writes the lines of the command `site`: the order of a site-symmetry group and the multiplicity of its point, then each
/// element, then each point of the orbit. It takes no memory. After an Err a prefix of the lines is written.
pub fn print_site<K: Sink>(site: &Site, orbit: &Orbit, sink: &mut K) -> Result<(), SinkStop>
    ensures { Prints K.seen (IsSiteText site.now orbit.now) sink.old sink.new result }
{
    let mut page = Page::new();
    push_counts(site.len(), orbit.len(), &mut page);
    put_listed(&ElementLines { site }, &mut page, sink)?;
    make_room(POINT_LINE, &mut page, sink)?;
    put_listed(&PointLines { orbit }, &mut page, sink)?;
    put_page(&page, sink)
}

#[derive(Drop)]
struct ElementLines<'a> {
    site: &'a Site,
}

impl Listed for ElementLines<'_> {
    ghost texts = { λ lines at. AreLines IsElementLine (drop at lines.site.now) };

    ghost count = { λ lines. length lines.site.now };

    ghost longest = { ELEMENT_LINE };

    ghost fits = { Prim.search rules };

    fn len(&self) -> u32 {
        u32::from(self.site.len())
    }

    fn longest_line(&self) -> usize {
        ELEMENT_LINE
    }

    fn push_line(&self, at: u32, page: &mut Page) {
        prove!(at < self.site.len() as u32);
        push_element(&self.site.get(at as u16), page);
    }
}

#[derive(Drop)]
struct PointLines<'a> {
    orbit: &'a Orbit,
}

impl Listed for PointLines<'_> {
    ghost texts = { λ lines at. AreLines IsPointLine (drop at lines.orbit.now) };

    ghost count = { λ lines. length lines.orbit.now };

    ghost longest = { POINT_LINE };

    ghost fits = { Prim.search rules };

    fn len(&self) -> u32 {
        u32::from(self.orbit.len())
    }

    fn longest_line(&self) -> usize {
        POINT_LINE
    }

    fn push_line(&self, at: u32, page: &mut Page) {
        prove!(at < self.orbit.len() as u32);
        push_point(&self.orbit.get(at as u16), page);
    }
}

fn push_counts(order: u16, multiplicity: u16, page: &mut Page)
    requires { length page.old + COUNTS_TEXT ≤ PAGE_ROOM }
    ensures text { page.new ≡ page.old ++ counts_text order multiplicity }
    ensures short { length page.new ≤ length page.old + COUNTS_TEXT }
{
    page.push(b"order ");
    page.push(Buffer::new().format(order).as_bytes());
    page.push(b"\nmultiplicity ");
    page.push(Buffer::new().format(multiplicity).as_bytes());
    page.push(b"\n");
}

fn push_element(element: &Move, page: &mut Page)
    requires { length page.old + ELEMENT_LINE ≤ PAGE_ROOM }
    ensures { AddsSuch (IsElementLine (map_in element.now)) page.old page.new }
{
    page.push(b"fix ");
    page.push(print_move(element).bytes());
    page.push(b"\n");
}

fn push_point(point: &Point, page: &mut Page)
    requires { length page.old + POINT_LINE ≤ PAGE_ROOM }
    ensures { AddsSuch (IsPointLine (point_in point.now)) page.old page.new }
{
    let [x, y, z] = point.n;
    page.push(b"at ");
    page.push(print_frac(x, point.d).bytes());
    page.push(b" ");
    page.push(print_frac(y, point.d).bytes());
    page.push(b" ");
    page.push(print_frac(z, point.d).bytes());
    page.push(b"\n");
}
