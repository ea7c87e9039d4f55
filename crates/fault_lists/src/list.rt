//! The faults of a text that can be told apart.

ghost use Rattle.std.specs.Prelude.{◌≡◌, ◌++◌, [], false, ℕ, List, IfOk, OnOk, MatchOption, map};
ghost use Rattle.text_words.specs.Text.{lines};
ghost use Rattle.source_quotes.specs.Lines.{line_in};
ghost use Rattle.fault_lists.specs.Doubts.{structure_of, leaves_doubt, lost_by, follows};
ghost use Rattle.fault_lists.specs.FaultLists.{HasMeaning, HasFault, blanked, all_of, behind_told, Lists, Adds, ListsFaults};
ghost use denote.Ref.{Bor};

use crate::doubt::{Structure, find_lost_names, follows, is_doubtful, structure_of};
use crate::fault::{Fault, fault_of};
use crate::names::{names_on, opening_on, opening_with};
use source_quotes::{Meant, Source};
use std::alloc::{AllocError, Global};

/// The most faults that are told of a text.
const MOST_TOLD: usize = 20;

/// The most lines that are left out of a text.
const MOST_LEFT_OUT: usize = 100;

/// The text in which each byte of the line with this number is a space.
fn blank_line(alloc: Global, text: &[u8], number: u32) -> Result<Vec<u8>, AllocError>
    ensures { IfOk result (λ left. left.items ≡ blanked number text.now) }
{
    let mut left = Vec::new(alloc);
    let mut line = number;
    for byte in text {
        if *byte == b'\n' {
            left.push(b'\n')?;
            line = line.saturating_sub(1);
        } else if line == 1 {
            left.push(b' ')?;
        } else {
            left.push(*byte)?;
        }
    }
    Ok(left)
}

/// What is left of a text without faulty lines.
#[derive(Drop)]
struct Rest<'a> {
    /// The text, in which these lines are blank.
    text: Vec<u8>,
    /// The names that are lost with them.
    lost: Vec<&'a [u8]>,
}

impl<'a> Rest<'a> {
    /// All of a text.
    fn new(alloc: Global, text: &[u8]) -> Result<Rest<'a>, AllocError>
        ensures text { IfOk result (λ rest. rest.text.items ≡ text.now) }
        ensures lost { IfOk result (λ rest. rest.lost.items ≡ []) }
    {
        Ok(Rest {
            text: Vec::from_slice(alloc, text)?,
            lost: Vec::new(alloc),
        })
    }

    /// The fault of what is left.
    fn fault(&self, alloc: Global, meant: Meant) -> Result<Option<Fault>, AllocError>
        ensures { IfOk result (λ found. MatchOption found (HasMeaning meant self.now.text.items) (HasFault meant self.now.text.items)) }
    {
        fault_of(alloc, meant, self.text.as_slice())
    }

    /// Whether a fault of what is left may follow from the lines that were left out.
    fn follows(&self, alloc: Global, source: &Source<'_>, fault: Fault) -> Result<bool, AllocError>
        ensures { IfOk result (λ is_following. is_following ≡
            follows (map (λ (name : Bor (List ℕ)). name.now) self.now.lost.items) (line_in source.now fault.line) fault.why) }
    {
        let names = names_on(alloc, source.line(fault.line))?;
        Ok(follows(self.lost.as_slice(), names.as_slice(), fault.why))
    }

    /// Adds the names that are lost with the line with this number.
    fn lose(
        &mut self,
        alloc: Global,
        meant: Meant,
        source: &Source<'a>,
        number: u32,
    ) -> Result<(), AllocError>
        ensures text { self.new.text ≡ self.old.text }
        ensures lost { OnOk result (map (λ (name : Bor (List ℕ)). name.now) self.new.lost.items
            ≡ map (λ (name : Bor (List ℕ)). name.now) self.old.lost.items ++ lost_by meant (line_in source.now number)) }
    {
        let names = names_on(alloc, source.line(number))?;
        let names = names.as_slice();
        self.lost
            .extend_from_slice(find_lost_names(meant, opening_with(names), names))
    }

    /// Leaves the line with this number out.
    fn leave_out(
        &mut self,
        alloc: Global,
        meant: Meant,
        source: &Source<'a>,
        number: u32,
    ) -> Result<(), AllocError>
        ensures text { OnOk result (self.new.text.items ≡ blanked number self.old.text.items) }
        ensures lost { OnOk result (map (λ (name : Bor (List ℕ)). name.now) self.new.lost.items
            ≡ map (λ (name : Bor (List ℕ)). name.now) self.old.lost.items ++ lost_by meant (line_in source.now number)) }
    {
        self.lose(alloc, meant, source, number)?;
        self.text = blank_line(alloc, self.text.as_slice(), number)?;
        Ok(())
    }
}

/// Whether all is in doubt behind a fault.
fn leaves_doubt(
    alloc: Global,
    meant: Meant,
    source: &Source<'_>,
    structure: Structure,
    fault: Fault,
) -> Result<bool, AllocError>
    requires { structure ≡ structure_of source.now }
    ensures { IfOk result (λ is_last. is_last ≡ leaves_doubt meant source.now fault.line fault.why) }
{
    let opening = opening_on(alloc, source.line(fault.line))?;
    Ok(is_doubtful(meant, structure, opening, fault.line, fault.why))
}

/// Adds the faults of what is left of a text that are to be told, and says whether there are more.
fn list_from<'a>(
    alloc: Global,
    meant: Meant,
    source: &Source<'a>,
    structure: Structure,
    rest: &mut Rest<'a>,
    looks: usize,
    left: usize,
    others: &mut Vec<Fault>,
) -> Result<bool, AllocError>
    requires { structure ≡ structure_of source.now }
    ensures { IfOk result (Adds meant source.now (record {
      looks = looks;
      left = left;
      text = rest.old.text.items;
      lost = map (λ (name : Bor (List ℕ)). name.now) rest.old.lost.items;
    }) others.old.items others.new.items) }
{
    let found = rest.fault(alloc, meant)?;
    match found {
        None => Ok(false),
        Some(fault) => {
            if looks == 0 {
                return Ok(true);
            }
            let is_following = rest.follows(alloc, source, fault)?;
            if is_following {
                rest.leave_out(alloc, meant, source, fault.line)?;
                let is_more = list_from(
                    alloc,
                    meant,
                    source,
                    structure,
                    rest,
                    looks - 1,
                    left,
                    others,
                )?;
                return Ok(is_more);
            }
            if left == 0 {
                return Ok(true);
            }
            others.push(fault)?;
            let is_last = leaves_doubt(alloc, meant, source, structure, fault)?;
            if is_last {
                return Ok(false);
            }
            rest.leave_out(alloc, meant, source, fault.line)?;
            let is_more = list_from(
                alloc,
                meant,
                source,
                structure,
                rest,
                looks - 1,
                left - 1,
                others,
            )?;
            Ok(is_more)
        }
    }
}

/// The faults that are told behind the first one of a text.
#[derive(Drop)]
pub struct Others {
    pub faults: Vec<Fault>,
    /// Whether there are more.
    pub is_more: bool,
}

/// Nothing is told behind the first fault.
fn no_others(alloc: Global) -> Others
    ensures faults { result.faults.items ≡ [] }
    ensures more { result.is_more ≡ false }
{
    Others {
        faults: Vec::new(alloc),
        is_more: false,
    }
}

/// The faults behind the first one of a text, where that leaves no doubt.
fn list_behind(
    alloc: Global,
    meant: Meant,
    text: &[u8],
    source: &Source<'_>,
    structure: Structure,
    first: Fault,
) -> Result<Others, AllocError>
    requires { structure ≡ structure_of source.now }
    ensures { IfOk result (λ others.
        Lists meant source.now (behind_told meant source.now first (all_of text.now)) others.faults.items others.is_more) }
{
    let mut rest = Rest::new(alloc, text)?;
    rest.leave_out(alloc, meant, source, first.line)?;
    let mut faults = Vec::new(alloc);
    let is_more = list_from(
        alloc,
        meant,
        source,
        structure,
        &mut rest,
        MOST_LEFT_OUT - 1,
        MOST_TOLD - 1,
        &mut faults,
    )?;
    Ok(Others { faults, is_more })
}

/// The faults that can be told apart behind the first one of a text, in order of their lines.
pub fn list_others(
    alloc: Global,
    meant: Meant,
    text: &[u8],
    first: Fault,
) -> Result<Others, AllocError>
    requires { HasFault meant text.now first }
    ensures { IfOk result (λ others. ListsFaults meant text.now first others.faults.items others.is_more) }
{
    let source = Source::new(alloc, text)?;
    let structure = structure_of(alloc, text)?;
    let is_last = leaves_doubt(alloc, meant, &source, structure, first)?;
    if is_last {
        return Ok(no_others(alloc));
    }
    let others = list_behind(alloc, meant, text, &source, structure, first)?;
    Ok(others)
}
