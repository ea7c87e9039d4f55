//! The languages in which drawings are written.

ghost use Rattle.std.specs.Prelude.{◌≡◌, IfOk, IsTrue};
ghost use Rattle.trace_text.specs.Shapes.{is_numbered};
ghost use Rattle.dag_drawing.specs.Labels.{naming_of};
ghost use Rattle.dag_drawing.specs.Forms.{text_in};

use crate::dot::dot_text;
use crate::drawing::Drawing;
use crate::labels::Names;
use crate::svg::svg_text;
use std::alloc::{AllocError, Global};

/// The language of a drawing's text.
#[derive(Clone, Copy)]
pub enum Form {
    /// Graphviz's language.
    Dot,
    /// SVG, a picture.
    Svg,
}

/// The text of a drawing, with the names and the notes of the trace: what was recorded, the strands, each with its number, its function
/// and its accesses, the edges of the dag, each with its kind, and in red the races, each with its rule and what was accessed. In SVG
/// strands are boxes, each on a level below those that lead to it. Its time is linear in what is drawn. Errors where there is no memory.
pub fn write_drawing(
    alloc: Global,
    form: Form,
    names: &Names<'_>,
    drawing: &Drawing,
) -> Result<Vec<u8>, AllocError>
    requires numbered { IsTrue (is_numbered 0 names.now.mems.now) }
    ensures { IfOk result (λ text. text.items ≡ text_in form (naming_of names.now) drawing.now) }
{
    match form {
        Form::Dot => dot_text(alloc, names, drawing),
        Form::Svg => svg_text(alloc, names, drawing),
    }
}
