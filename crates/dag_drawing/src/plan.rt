//! Where the boxes of a picture stand.

ghost use Rattle.std.specs.Prelude.{◌≡◌, ◌+◌, ◌-◌, ◌*◌, ◌<◌, ◌≤◌, ◌^◌, IfOk, IsTrue, map, replicate, slice_index_or, slice_set, string_bytes};
ghost use Rattle.trace_text.specs.Shapes.{is_numbered};
ghost use Rattle.dag_drawing.specs.Labels.{naming_of};
ghost use Rattle.dag_drawing.specs.Plans.{stepped, capped, depths_by, counts_by, columns_by, greatest, longest, longest_line, most_lines};
ghost use Rattle.dag_drawing.specs.Plans.{measures_by, plan_of, plan, last_of, left_at, middle_at, top_at, width_of, height_of};

use crate::drawing::{Access, Drawing, Edge};
use crate::labels::{Names, node_lines, own_of};
use std::alloc::{AllocError, Global};

/// The characters of a line that there is room for.
pub const MOST_CHARACTERS: u16 = 64;

/// The characters of a line of the title.
pub const MOST_TITLE_CHARACTERS: u16 = 120;

/// The lines of a box.
pub const MOST_BOX_LINES: u16 = 14;

/// The lines of the title.
pub const MOST_TITLE_LINES: u16 = 100;

/// Numbers of strands are below this: two strands begin at each spawn, and one number more is reserved for a join.
const MOST_NUMBERS: u16 = 20_000;

/// The most strands of a level, and of levels.
const MOST: u32 = 10_000;

/// The measures of a picture.
#[derive(Clone, Copy)]
pub struct Measures {
    /// Half of a box's width.
    pub half: u16,
    /// Half of the way from a box to the next one.
    pub across: u16,
    /// The way from a level to the next one.
    pub down: u16,
    /// The top of the first level.
    pub above: u16,
    /// The width of the title.
    pub title: u16,
}

/// Where the boxes of a picture stand.
pub struct Layout {
    /// The levels of strands, by their numbers.
    pub depths: Vec<u32>,
    /// Their columns.
    pub columns: Vec<u32>,
    /// How many strands stand on each level.
    pub counts: Vec<u32>,
    /// The most strands of a level.
    pub widest: u32,
    /// The last level.
    pub deepest: u32,
    /// The measures of the picture.
    pub measures: Measures,
}

impl Drop for Layout {
    fn drop(self) {
        let Layout {
            depths: _,
            columns: _,
            counts: _,
            widest: _,
            deepest: _,
            measures: _,
        } = self;
    }
}

/// The next number, which is at most that of the strands that are drawn.
fn next_number(number: u32) -> u32
    ensures { result ≡ stepped number }
{
    if number < MOST { number + 1 } else { MOST }
}

/// A number, or the most.
pub fn at_most(most: u16, number: usize) -> u16
    ensures value { result ≡ capped most number }
    ensures bound { result ≤ most }
{
    if number < usize::from(most) {
        number as u16
    } else {
        most
    }
}

/// A number of a list, or 0 behind its end.
fn number_at(numbers: &[u32], at: usize) -> u32
    ensures { result ≡ slice_index_or numbers.now at 0 }
{
    match numbers.get(at) {
        Some(number) => *number,
        None => 0,
    }
}

/// Puts a number in its place, where the list has that.
fn put(numbers: &mut Vec<u32>, at: usize, number: u32)
    ensures { numbers.new.items ≡ slice_set numbers.old.items at number }
{
    if at < numbers.len() {
        numbers[at] = number;
    }
}

/// The levels of strands, by their numbers: what an edge leads to is on a level below that which it comes from.
fn depths_of(alloc: Global, size: usize, edges: &[Edge]) -> Result<Vec<u32>, AllocError>
    ensures { IfOk result (λ depths. depths.items ≡ depths_by (replicate size 0) edges.now) }
{
    let mut depths = vec![in alloc; 0u32; size]?;
    for edge in edges {
        let to = number_at(depths.as_slice(), edge.to as usize);
        let below = next_number(number_at(depths.as_slice(), edge.from as usize));
        put(&mut depths, edge.to as usize, to.max(below));
    }
    Ok(depths)
}

/// Puts strands behind those of their levels.
fn add_to_levels(depths: &[u32], counts: &mut Vec<u32>, columns: &mut Vec<u32>, strands: &[usize])
    ensures counts { counts.new.items ≡ counts_by depths.now counts.old.items strands.now }
    ensures columns { columns.new.items ≡ columns_by depths.now counts.old.items columns.old.items strands.now }
{
    for strand in strands {
        let level = number_at(depths, *strand) as usize;
        let column = number_at(counts.as_slice(), level);
        put(counts, level, next_number(column));
        put(columns, *strand, column);
    }
}

/// The greatest of some numbers.
fn greatest(numbers: &[u32]) -> u32
    ensures { result ≡ greatest 0 numbers.now }
{
    let mut most = 0;
    for number in numbers {
        most = most.max(*number);
    }
    most
}

/// The length of the longest line, which is not below this.
fn longest(most: usize, lines: &[String]) -> usize
    ensures { result ≡ longest most (map string_bytes lines.now) }
{
    let mut most = most;
    for line in lines {
        most = most.max(line.as_str().len());
    }
    most
}

/// The sizes of what is written in boxes.
#[derive(Clone, Copy)]
struct Sizes {
    /// The characters of the longest line.
    length: usize,
    /// The most lines of a strand.
    lines: usize,
}

/// The sizes of what is written of strands.
fn sizes_of(
    alloc: Global,
    names: &Names<'_>,
    strands: &[usize],
    accesses: &[Access],
) -> Result<Sizes, AllocError>
    requires numbered { IsTrue (is_numbered 0 names.now.mems.now) }
    ensures length { IfOk result (λ sizes. sizes.length ≡ longest_line (naming_of names.now) 0 strands.now accesses.now) }
    ensures lines { IfOk result (λ sizes. sizes.lines ≡ most_lines (naming_of names.now) 0 strands.now accesses.now) }
{
    let mut sizes = Sizes {
        length: 0,
        lines: 0,
    };
    let mut rest = accesses;
    for strand in strands {
        let (own, others) = rest.split_at(own_of(*strand, rest));
        let lines = node_lines(alloc, names, *strand, own)?;
        sizes = Sizes {
            length: longest(sizes.length, lines.as_slice()),
            lines: sizes.lines.max(lines.len()),
        };
        rest = others;
    }
    Ok(sizes)
}

/// The measures of a picture with boxes of these sizes below a title.
fn measures_of(sizes: Sizes, title: &[String]) -> Measures
    ensures { result ≡ measures_by sizes.length sizes.lines (map string_bytes title.now) }
{
    let characters = at_most(MOST_CHARACTERS, sizes.length);
    Measures {
        half: 4 * characters + 8,
        across: 4 * characters + 24,
        down: 16 * at_most(MOST_BOX_LINES, sizes.lines) + 80,
        above: 16 * at_most(MOST_TITLE_LINES, title.len()) + 96,
        title: 8 * at_most(MOST_TITLE_CHARACTERS, longest(0, title)) + 32,
    }
}

/// The last of some numbers.
fn last_of(numbers: &[usize]) -> usize
    ensures { result ≡ last_of numbers.now }
{
    match numbers.last() {
        Some(number) => *number,
        None => 0,
    }
}

/// Where the boxes of a drawing stand.
pub fn layout_of(alloc: Global, names: &Names<'_>, drawing: &Drawing) -> Result<Layout, AllocError>
    requires numbered { IsTrue (is_numbered 0 names.now.mems.now) }
    ensures { IfOk result (λ layout. plan_of layout ≡ plan (naming_of names.now) drawing.now) }
{
    let strands = drawing.strands.as_slice();
    let accesses = drawing.accesses.as_slice();
    let sizes = sizes_of(alloc, names, strands, accesses)?;
    let measures = measures_of(sizes, names.notes.runs());
    let size = usize::from(at_most(MOST_NUMBERS, last_of(strands))) + 1;
    let depths = depths_of(alloc, size, drawing.edges.as_slice())?;
    let mut counts = vec![in alloc; 0u32; size]?;
    let mut columns = vec![in alloc; 0u32; size]?;
    add_to_levels(depths.as_slice(), &mut counts, &mut columns, strands);
    Ok(Layout {
        widest: greatest(counts.as_slice()),
        deepest: greatest(depths.as_slice()),
        depths,
        columns,
        counts,
        measures,
    })
}

/// So many times a way.
fn scale(count: u64, way: u16) -> u64
    requires small { count < 2 ^ 34 }
    ensures value { result ≡ count * way }
    ensures bound { result < 2 ^ 50 }
{
    count * u64::from(way)
}

impl Layout {
    /// The left end of a strand's box, with each level in the middle.
    pub fn left_edge(&self, strand: usize) -> u64
        ensures value { result ≡ left_at (plan_of self.now) strand }
        ensures bound { result < 2 ^ 51 }
    {
        let level = number_at(self.depths.as_slice(), strand) as usize;
        let count = number_at(self.counts.as_slice(), level);
        let column = number_at(self.columns.as_slice(), strand);
        let steps = u64::from(self.widest.saturating_sub(count)) + 2 * u64::from(column);
        16 + scale(steps, self.measures.across)
    }

    /// The middle of a strand's box.
    pub fn middle(&self, strand: usize) -> u64
        ensures value { result ≡ middle_at (plan_of self.now) strand }
        ensures bound { result < 2 ^ 52 }
    {
        self.left_edge(strand) + u64::from(self.measures.half)
    }

    /// The top of a strand's box.
    pub fn top(&self, strand: usize) -> u64
        ensures value { result ≡ top_at (plan_of self.now) strand }
        ensures bound { result < 2 ^ 51 }
    {
        let level = number_at(self.depths.as_slice(), strand);
        u64::from(self.measures.above) + scale(u64::from(level), self.measures.down)
    }

    /// The width of the picture.
    pub fn width(&self) -> u64
        ensures { result ≡ width_of (plan_of self.now) }
    {
        let boxes = 16 + scale(2 * u64::from(self.widest), self.measures.across);
        boxes.max(u64::from(self.measures.title))
    }

    /// Its height.
    pub fn height(&self) -> u64
        ensures { result ≡ height_of (plan_of self.now) }
    {
        u64::from(self.measures.above) + scale(u64::from(self.deepest) + 1, self.measures.down)
    }
}
