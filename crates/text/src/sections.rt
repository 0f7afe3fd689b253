// The sections of figures' text that have a line for each zone or node, and the text.
ghost use Rattle.std.specs.Prelude.{◌≡◌, ◌<◌, ◌+◌, ◌≤◌, length, take};
ghost use Rattle.meaning.specs.File.{row_at};
ghost use Rattle.meaning.specs.Name.{unpadded};
ghost use Rattle.meaning.specs.Sheet.{zone_lines, node_lines, sheet_text};
ghost use Rattle.lines.specs.Making.{Put};
ghost use Rattle.text.specs.Room.{zones_room, nodes_room, room};
ghost use Rattle.text.specs.SheetText.{side_in, name_of, local_in, shown_in, sized, Sized};

use crate::put::put_line;
use meaning::{Figures, LocalFigures, Section, Side, SideFigures};

// Room for the text of any figures: two sides of 32 zones, 256 nodes, and the lines of C and of the remainders.
pub const ROOM: usize = 44 + 2 * (32 * lines::WIDTH) + 256 * 57 + 44;

// The names that begin the rows of a section.
#[derive(Clone, Copy)]
pub struct Names<'a> {
    pub file: &'a [u8],
    pub rows: Section,
}

// The bytes from a row's name on.
fn name_at<'a>(names: &Names<'a>, row: usize) -> &'a [u8]
    requires { (row < 256) × (row_at names.now.rows row ≤ length names.now.file.now) }
    ensures { unpadded (take 12 result.now) ≡ name_of names.now.file.now names.now.rows row }
{
    &names.file[fields::row_at(names.rows, row as u32)..]
}

// A line for each zone of a side.
pub fn put_zones(out: &mut [u8], from: usize, side: Side, f: &SideFigures) -> usize
    requires { (f.now.zones ≤ 32) × (from + zones_room ≤ length out.old) }
    ensures { Put zones_room out.old from (zone_lines side (side_in f.now)) out.new result }
{
    let mut at = from;
    for k in 0..f.zones {
        let line = lines::zone_line(f.form, side, k + 1, f.residual, f.zone[k]);
        at = put_line(out, at, &line);
    }
    at
}

// A line for each node with TEC.
pub fn put_nodes(
    out: &mut [u8],
    from: usize,
    names: &Names,
    nodes: usize,
    local: &[LocalFigures; 256],
) -> usize
    requires { (nodes ≤ 256) × (row_at names.now.rows nodes ≤ length names.now.file.now) × (from + nodes_room ≤ length out.old) }
    ensures { Put nodes_room out.old from (node_lines nodes (name_of names.now.file.now names.now.rows) (local_in local.now)) out.new result }
{
    let mut at = from;
    for v in 0..nodes {
        let line = lines::node_line(name_at(names, v), local[v]);
        at = put_line(out, at, &line);
    }
    at
}

// The text of figures, at the front of the buffer; answers its length.
pub fn put_figures(out: &mut [u8], figures: &Figures, names: &Names) -> usize
    requires { Sized figures.now names.now.file.now names.now.rows × (room ≤ length out.old) }
    ensures { Put room out.old 0 (sheet_text (shown_in figures.now names.now.file.now names.now.rows)) out.new result }
{
    let generation = &figures.generation;
    let demand = &figures.demand;
    let first = lines::constant_line(figures.edition, figures.c, figures.peak_c);
    let at = put_line(out, 0, &first);
    let at = put_zones(out, at, Side::Generation, generation);
    let at = put_zones(out, at, Side::Demand, demand);
    let at = put_nodes(out, at, names, figures.nodes, &figures.local);
    let last = lines::remainder_line(generation.remainder, demand.remainder);
    put_line(out, at, &last)
}

// Whether the counts stay inside their tables and the file.
pub fn sized(figures: &Figures, names: &Names) -> bool
    ensures { result ≡ sized figures.now names.now.file.now names.now.rows }
{
    figures.nodes <= 256
        && (figures.generation.zones <= 32)
            & (figures.demand.zones <= 32)
            & (fields::row_at(names.rows, figures.nodes as u32) <= names.file.len())
}
