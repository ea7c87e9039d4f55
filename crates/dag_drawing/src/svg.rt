//! The text of a drawing in SVG.

ghost use Rattle.std.specs.Prelude.{◌≡◌, ◌∷◌, [], IfOk, IsTrue, flat_map, map, string_bytes, unwrap_or};
ghost use Rattle.std.specs.Option.{option_map};
ghost use Rattle.text_buffers.specs.Builders.{Adds};
ghost use Rattle.trace_text.specs.Shapes.{is_numbered};
ghost use Rattle.dag_drawing.specs.Labels.{naming_of, node_lines};
ghost use Rattle.dag_drawing.specs.Plans.{plan_of};
ghost use Rattle.dag_drawing.specs.Pictures.{xml_byte, xml_text, cut_text, lines_text, edge_text, node_text, nodes_text};
ghost use Rattle.dag_drawing.specs.Pictures.{race_text, races_text, style_text, head_text, title_text, svg_text};

use crate::blanks::push_filled;
use crate::dot::word_of;
use crate::drawing::{Access, Drawing, Edge, Race};
use crate::labels::{Names, node_lines, own_of, race_label};
use crate::plan::{
    Layout, MOST_BOX_LINES, MOST_CHARACTERS, MOST_TITLE_CHARACTERS, MOST_TITLE_LINES, at_most,
    layout_of,
};
use std::alloc::{AllocError, Global};
use text_buffers::TextBuilder;

/// What a byte stands as in XML, where not as itself.
fn xml_word(byte: u8) -> Option<&'static str>
    ensures { unwrap_or (option_map (λ word. word.now) result) (byte ∷ []) ≡ xml_byte byte }
{
    match byte {
        b'&' => Some("&amp;"),
        b'<' => Some("&lt;"),
        b'>' => Some("&gt;"),
        b'"' => Some("&quot;"),
        b'\'' => Some("&apos;"),
        b' '..=b'~' => None,
        _ => Some("?"),
    }
}

/// Adds bytes as they stand in XML.
fn push_xml(text: &mut TextBuilder, bytes: &[u8])
    ensures { Adds text.old (xml_text bytes.now) text.new }
{
    for byte in bytes {
        match xml_word(*byte) {
            Some(word) => text.push_words(word),
            None => text.push_byte(*byte),
        }
    }
}

/// Adds a line, which is cut where it is longer than this.
fn push_cut(text: &mut TextBuilder, most: u16, line: &str)
    ensures { Adds text.old (cut_text most line.now) text.new }
{
    let bytes = line.as_bytes();
    if bytes.len() > usize::from(most) {
        let (kept, _) = bytes.split_at(usize::from(most.saturating_sub(2)));
        push_xml(text, kept);
        text.push_words("..");
    } else {
        push_xml(text, bytes);
    }
}

/// Adds lines, one below the other.
fn push_lines(text: &mut TextBuilder, most: u16, left: u64, lines: &[String])
    ensures { Adds text.old (lines_text most left (map string_bytes lines.now)) text.new }
{
    for line in lines {
        push_filled(text, "<tspan x=\"#\" dy=\"16\">", &[left]);
        push_cut(text, most, line.as_str());
        text.push_words("</tspan>");
    }
}

/// Adds edges.
fn push_edges(text: &mut TextBuilder, layout: &Layout, edges: &[Edge])
    ensures { Adds text.old (flat_map (edge_text (plan_of layout.now)) edges.now) text.new }
{
    for edge in edges {
        let from = edge.from as usize;
        let to = edge.to as usize;
        text.push_words("<line class=\"");
        text.push_words(word_of(edge.kind));
        push_filled(
            text,
            "\" data-from=\"#\" data-to=\"#\" x1=\"#\" y1=\"#\" x2=\"#\" y2=\"#\"/>\n",
            &[
                from as u64,
                to as u64,
                layout.middle(from),
                layout.top(from),
                layout.middle(to),
                layout.top(to),
            ],
        );
    }
}

/// Adds a strand with its accesses.
fn push_node(
    alloc: Global,
    text: &mut TextBuilder,
    layout: &Layout,
    names: &Names<'_>,
    strand: usize,
    own: &[Access],
)
    requires numbered { IsTrue (is_numbered 0 names.now.mems.now) }
    ensures { Adds text.old (node_text (plan_of layout.now) strand (node_lines (naming_of names.now) strand own.now)) text.new }
{
    let Ok(told) = node_lines(alloc, names, strand, own) else {
        return text.fail();
    };
    let lines = told.as_slice();
    let left = layout.left_edge(strand);
    let top = layout.top(strand);
    let width = 2 * u64::from(layout.measures.half);
    let height = 16 * u64::from(at_most(MOST_BOX_LINES, lines.len())) + 8;
    push_filled(
        text,
        "<g id=\"strand-#\">\n<rect x=\"#\" y=\"#\" width=\"#\" height=\"#\"/>\n<text y=\"#\">",
        &[strand as u64, left, top, width, height, top],
    );
    push_lines(text, MOST_CHARACTERS, left + 8, lines);
    text.push_words("</text>\n</g>\n");
}

/// Adds strands, each with its own of the accesses.
fn push_nodes(
    alloc: Global,
    text: &mut TextBuilder,
    layout: &Layout,
    names: &Names<'_>,
    strands: &[usize],
    accesses: &[Access],
)
    requires numbered { IsTrue (is_numbered 0 names.now.mems.now) }
    ensures { Adds text.old (nodes_text (plan_of layout.now) (naming_of names.now) strands.now accesses.now) text.new }
{
    let mut rest = accesses;
    for strand in strands {
        let (own, others) = rest.split_at(own_of(*strand, rest));
        push_node(alloc, text, layout, names, *strand, own);
        rest = others;
    }
}

/// Adds a race, and in the middle of its arc what is written there. The number decides how high the arc rises.
fn push_race(
    alloc: Global,
    text: &mut TextBuilder,
    layout: &Layout,
    names: &Names<'_>,
    number: usize,
    race: &Race,
)
    requires numbered { IsTrue (is_numbered 0 names.now.mems.now) }
    ensures { Adds text.old (race_text (plan_of layout.now) (naming_of names.now) number race.now) text.new }
{
    let Ok(label) = race_label(alloc, names, race) else {
        return text.fail();
    };
    let from = race.witness.strand as usize;
    let to = race.request.strand as usize;
    let x = layout.middle(from);
    let y = layout.top(from);
    let other_x = layout.middle(to);
    let other_y = layout.top(to);
    let rise = 24 + 12 * (number % 5) as u64;
    push_filled(
        text,
        "<g class=\"race\" data-from=\"#\" data-to=\"#\">\n<path d=\"M # # C # # # # # #\"/>\n<text x=\"#\" y=\"#\">",
        &[
            from as u64,
            to as u64,
            x,
            y,
            x,
            y.saturating_sub(rise),
            other_x,
            other_y.saturating_sub(rise),
            other_x,
            other_y,
            (x + other_x) / 2,
            ((y + other_y) / 2).saturating_sub(rise),
        ],
    );
    push_xml(text, label.as_bytes());
    text.push_words("</text>\n</g>\n");
}

/// Adds races.
fn push_races(
    alloc: Global,
    text: &mut TextBuilder,
    layout: &Layout,
    names: &Names<'_>,
    races: &[Race],
)
    requires numbered { IsTrue (is_numbered 0 names.now.mems.now) }
    ensures { Adds text.old (races_text (plan_of layout.now) (naming_of names.now) 0 races.now) text.new }
{
    for (number, race) in races.iter().enumerate() {
        push_race(alloc, text, layout, names, number, race);
    }
}

/// How the parts of a picture look.
fn style() -> &'static str
    ensures { result.now ≡ style_text }
{
    "<style>\nsvg { background: white }\ntext { font: 13px monospace; white-space: pre }\nrect { fill: white; stroke: black }\nline { stroke: black; marker-end: url(#arrow) }\n.join { stroke-dasharray: 6 3 }\n.race path { fill: none; stroke: red }\n.race text { fill: red; text-anchor: middle }\n</style>\n<marker id=\"arrow\" markerWidth=\"8\" markerHeight=\"8\" refX=\"8\" refY=\"4\" orient=\"auto\"><path d=\"M 0 0 L 8 4 L 0 8 z\"/></marker>\n"
}

/// Adds the head of a picture of this width and height.
fn push_head(text: &mut TextBuilder, width: u64, height: u64)
    ensures { Adds text.old (head_text width height) text.new }
{
    push_filled(
        text,
        "<svg xmlns=\"http://www.w3.org/2000/svg\" width=\"#\" height=\"#\" viewBox=\"0 0 # #\">\n",
        &[width, height, width, height],
    );
    text.push_words(style());
}

/// Adds what was recorded.
fn push_title(text: &mut TextBuilder, runs: &[String])
    ensures { Adds text.old (title_text (map string_bytes runs.now)) text.new }
{
    if runs.is_empty() {
        return;
    }
    let (shown, _) = runs.split_at(usize::from(MOST_TITLE_LINES).min(runs.len()));
    text.push_words("<text id=\"title\" y=\"8\">");
    push_lines(text, MOST_TITLE_CHARACTERS, 16, shown);
    text.push_words("</text>\n");
}

/// The text of a drawing in SVG: above it what was recorded, a box for each strand, on a level below those that lead to it, a line for
/// each edge of the dag, and a red arc for each race. Errors where there is no memory.
pub fn svg_text(alloc: Global, names: &Names<'_>, drawing: &Drawing) -> Result<Vec<u8>, AllocError>
    requires numbered { IsTrue (is_numbered 0 names.now.mems.now) }
    ensures { IfOk result (λ text. text.items ≡ svg_text (naming_of names.now) drawing.now) }
{
    let layout = layout_of(alloc, names, drawing)?;
    let mut text = TextBuilder::new(alloc);
    push_head(&mut text, layout.width(), layout.height());
    push_title(&mut text, names.notes.runs());
    push_edges(&mut text, &layout, drawing.edges.as_slice());
    push_nodes(
        alloc,
        &mut text,
        &layout,
        names,
        drawing.strands.as_slice(),
        drawing.accesses.as_slice(),
    );
    push_races(alloc, &mut text, &layout, names, drawing.races.as_slice());
    text.push_words("</svg>\n");
    text.end()
}
