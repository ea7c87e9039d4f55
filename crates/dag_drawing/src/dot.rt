//! The text of a drawing in Graphviz's language.

ghost use Rattle.std.specs.Prelude.{◌≡◌, IfOk, IsTrue, flat_map, map, string_bytes};
ghost use Rattle.text_buffers.specs.Builders.{Adds};
ghost use Rattle.trace_text.specs.Shapes.{is_numbered};
ghost use Rattle.dag_drawing.specs.Texts.{escape, escaped, kind_word, edge_text};
ghost use Rattle.dag_drawing.specs.Labels.{naming_of, node_lines};
ghost use Rattle.dag_drawing.specs.Dots.{line_text, box_text, boxes_text, arc_text, heading_text, dot_text};

use crate::blanks::push_filled;
use crate::drawing::{Access, Drawing, Edge, EdgeKind, Race};
use crate::labels::{Names, node_lines, own_of, race_label};
use std::alloc::{AllocError, Global};
use text_buffers::TextBuilder;

/// Adds a byte as it stands between quotation marks.
fn push_escape(text: &mut TextBuilder, byte: u8)
    ensures { Adds text.old (escape byte) text.new }
{
    if byte == b'"' || byte == b'\\' {
        text.push_bytes(&[b'\\', byte]);
    } else {
        text.push_byte(byte);
    }
}

/// Adds text as it stands between quotation marks.
fn push_escaped(text: &mut TextBuilder, name: &str)
    ensures { Adds text.old (escaped name.now) text.new }
{
    for byte in name.as_bytes() {
        push_escape(text, *byte);
    }
}

/// Adds the lines of a label.
fn push_lines(text: &mut TextBuilder, lines: &[String])
    ensures { Adds text.old (flat_map line_text (map string_bytes lines.now)) text.new }
{
    for line in lines {
        push_escaped(text, line.as_str());
        text.push_words("\\l");
    }
}

/// Adds a strand with its accesses.
fn push_box(alloc: Global, text: &mut TextBuilder, names: &Names<'_>, strand: usize, own: &[Access])
    requires numbered { IsTrue (is_numbered 0 names.now.mems.now) }
    ensures { Adds text.old (box_text strand (node_lines (naming_of names.now) strand own.now)) text.new }
{
    let Ok(lines) = node_lines(alloc, names, strand, own) else {
        return text.fail();
    };
    push_filled(text, "  # [label=\"", &[strand as u64]);
    push_lines(text, lines.as_slice());
    text.push_words("\"];\n");
}

/// Adds strands, each with its own of the accesses.
fn push_boxes(
    alloc: Global,
    text: &mut TextBuilder,
    names: &Names<'_>,
    strands: &[usize],
    accesses: &[Access],
)
    requires numbered { IsTrue (is_numbered 0 names.now.mems.now) }
    ensures { Adds text.old (boxes_text (naming_of names.now) strands.now accesses.now) text.new }
{
    let mut rest = accesses;
    for strand in strands {
        let (own, others) = rest.split_at(own_of(*strand, rest));
        push_box(alloc, text, names, *strand, own);
        rest = others;
    }
}

/// The word of a kind of edge.
pub fn word_of(kind: EdgeKind) -> &'static str
    ensures { result.now ≡ kind_word kind }
{
    match kind {
        EdgeKind::Child => "child",
        EdgeKind::Next => "next",
        EdgeKind::Join => "join",
    }
}

/// Adds edges.
fn push_edges(text: &mut TextBuilder, edges: &[Edge])
    ensures { Adds text.old (flat_map edge_text edges.now) text.new }
{
    for edge in edges {
        let ends = [u64::from(edge.from), u64::from(edge.to)];
        push_filled(text, "  # -> # [label=\"", &ends);
        text.push_words(word_of(edge.kind));
        text.push_words("\"];\n");
    }
}

/// Adds a race.
fn push_race(alloc: Global, text: &mut TextBuilder, names: &Names<'_>, race: &Race)
    requires numbered { IsTrue (is_numbered 0 names.now.mems.now) }
    ensures { Adds text.old (arc_text (naming_of names.now) race.now) text.new }
{
    let Ok(label) = race_label(alloc, names, race) else {
        return text.fail();
    };
    let ends = [
        u64::from(race.witness.strand),
        u64::from(race.request.strand),
    ];
    push_filled(text, "  # -> # [label=\"", &ends);
    push_escaped(text, label.as_str());
    text.push_words("\", color=red, fontcolor=red, constraint=false];\n");
}

/// Adds races.
fn push_races(alloc: Global, text: &mut TextBuilder, names: &Names<'_>, races: &[Race])
    requires numbered { IsTrue (is_numbered 0 names.now.mems.now) }
    ensures { Adds text.old (flat_map (arc_text (naming_of names.now)) races.now) text.new }
{
    for race in races {
        push_race(alloc, text, names, race);
    }
}

/// Adds what was recorded.
fn push_heading(text: &mut TextBuilder, runs: &[String])
    ensures { Adds text.old (heading_text (map string_bytes runs.now)) text.new }
{
    if runs.is_empty() {
        return;
    }
    text.push_words("  labelloc=t;\n  label=\"");
    push_lines(text, runs);
    text.push_words("\";\n");
}

/// The text of a drawing in Graphviz's language: above the graph what was recorded, a node for each strand, an edge for each edge of the
/// dag, and a red edge for each race. Errors where there is no memory.
pub fn dot_text(alloc: Global, names: &Names<'_>, drawing: &Drawing) -> Result<Vec<u8>, AllocError>
    requires numbered { IsTrue (is_numbered 0 names.now.mems.now) }
    ensures { IfOk result (λ text. text.items ≡ dot_text (naming_of names.now) drawing.now) }
{
    let mut text = TextBuilder::new(alloc);
    text.push_words("digraph trace {\n");
    push_heading(&mut text, names.notes.runs());
    push_boxes(
        alloc,
        &mut text,
        names,
        drawing.strands.as_slice(),
        drawing.accesses.as_slice(),
    );
    push_edges(&mut text, drawing.edges.as_slice());
    push_races(alloc, &mut text, names, drawing.races.as_slice());
    text.push_words("}\n");
    text.end()
}
