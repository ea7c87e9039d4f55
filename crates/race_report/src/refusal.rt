//! A refusal and its witness as values that `serde_json` prints.

ghost use Rattle.std.specs.Prelude.{◌≡◌, IfOk, OnOk, string_bytes};
ghost use Rattle.serde.specs.Event.{Logs, Sends, Then, field_key, text as text_event};
ghost use Rattle.serde.specs.declared.name.Case.TheVariants.{AsIs};
ghost use Rattle.serde_json.specs.Data.{string};
ghost use Rattle.serde_json.specs.Events.{SendsValue};
ghost use Rattle.trace_text.specs.Shapes.{name_in};
ghost use Rattle.race_report.specs.Refusals.{witness_told};
ghost use Rattle.race_report.specs.RefusalValues.{name_text, refusal_in};

use model_accesses::Witness;
use serde::{Described, Serialize, Serializer};
use std::alloc::{AllocError, Global};
use text_words::{Mem, Request};
use trace_text::put_name;

/// The name of what a request asks for. The text of the name of an array's element is made only where it is printed.
#[derive(Clone, Copy)]
pub(crate) enum AskedName<'a> {
    /// The only cell of a memory, or a reducer.
    Whole(&'a str),
    /// The element of an array with this index.
    Element(Global, &'a Mem, u32),
}

/// The name of an array's element.
fn element_name(alloc: Global, array: &Mem, index: u32) -> Result<String, AllocError>
    ensures { IfOk result (λ name. string_bytes name ≡ name_in array.now index) }
{
    let mut name = String::new(alloc);
    put_name(&mut name, array, index)?;
    Ok(name)
}

/// Sends the name of an array's element.
fn send_element<S: Serializer>(
    alloc: Global,
    array: &Mem,
    index: u32,
    out: &mut S,
) -> Result<(), S::Error>
    ensures { OnOk result (Logs (S.written out.old) (S.written out.new) (text_event (name_in array.now index))) }
{
    match element_name(alloc, array, index) {
        Ok(name) => out.str(name.as_str()),
        Err(_) => Err(out.custom("there is no memory")),
    }
}

impl Described for AskedName<'_> {
    ghost writes = { λ name. SendsValue (string (name_text name)) };
}

impl Serialize for AskedName<'_> {
    fn serialize<S: Serializer>(&self, out: &mut S) -> Result<(), S::Error> {
        match self {
            AskedName::Whole(name) => out.str(name),
            AskedName::Element(alloc, array, index) => send_element(*alloc, array, *index, out),
        }
    }
}

/// Sends a member of an object.
#[inline(always)]
fn send_member<T: Serialize, S: Serializer>(
    out: &mut S,
    key: &str,
    value: &T,
) -> Result<(), S::Error>
    ensures { OnOk result (Then (Sends (field_key key.now AsIs)) (T.writes value.now) (S.written out.old) (S.written out.new)) }
{
    out.key(key)?;
    value.serialize(out)
}

/// The witness of a refusal, with the line of its entry.
#[derive(Clone, Copy)]
pub(crate) struct LinedWitness {
    pub(crate) witness: Witness,
    pub(crate) line: u32,
}

impl Described for LinedWitness {
    ghost writes = { λ lined. SendsValue (witness_told lined.line lined.witness) };
}

impl Serialize for LinedWitness {
    fn serialize<S: Serializer>(&self, out: &mut S) -> Result<(), S::Error> {
        out.begin_map(Some(3))?;
        send_member(out, "entry", &self.witness.entry)?;
        send_member(out, "line", &self.line)?;
        send_member(out, "strand", &self.witness.strand)?;
        out.end_map()
    }
}

/// A refusal. A `serde_json::Value` of one would take some fifteen allocations.
#[derive(Clone, Copy)]
pub(crate) struct Refusal<'a> {
    /// The number of its entry.
    pub(crate) number: usize,
    /// The request that was refused.
    pub(crate) request: Request,
    /// The name of the cell or the reducer that it asks for.
    pub(crate) name: AskedName<'a>,
    /// The word of the rule.
    pub(crate) rule: &'a str,
    /// None where a get is unset.
    pub(crate) witness: Option<LinedWitness>,
}

impl Described for Refusal<'_> {
    ghost writes = { λ refusal. SendsValue (refusal_in refusal) };
}

impl Serialize for Refusal<'_> {
    fn serialize<S: Serializer>(&self, out: &mut S) -> Result<(), S::Error> {
        out.begin_map(Some(6))?;
        send_member(out, "entry", &self.number)?;
        send_member(out, "line", &self.request.line)?;
        send_member(out, "name", &self.name)?;
        send_member(out, "rule", &self.rule)?;
        send_member(out, "strand", &self.request.strand)?;
        send_member(out, "witness", &self.witness)?;
        out.end_map()
    }
}
