//! What is told of the faults of a text.

ghost use Rattle.std.specs.Prelude.{◌≡◌, ◌+◌, ◌++◌, ℕ, List, length, IfOk, OnOk};
ghost use Rattle.text_words.specs.Text.{lines};
ghost use Rattle.fault_lists.specs.FaultLists.{HasFault};
ghost use Rattle.fault_lists.specs.Messages.{count_text, TellsEach, TellsOthers, TellsFaults};

use crate::fault::Fault;
use crate::list::list_others;
use source_quotes::{Meant, fault_message};
use std::alloc::{AllocError, Global};
use text_buffers::{push_number, push_words};

/// Adds how many faults are told, and how more are seen where there are more.
fn push_faults(told: &mut Vec<u8>, count: usize, is_more: bool) -> Result<(), AllocError>
    ensures { OnOk result (told.new.items ≡ told.old.items ++ count_text count is_more) }
{
    if is_more {
        push_number(told, "the first ", count as u64)?;
        push_words(
            told,
            " faults; mend these, and explain the file again for more\n",
        )
    } else {
        push_number(told, "", count as u64)?;
        push_words(told, " faults\n")
    }
}

/// Adds what is told of each fault, with an empty line before it.
fn push_each(
    told: &mut Vec<u8>,
    alloc: Global,
    is_painted: bool,
    file: &str,
    text: &[u8],
    meant: Meant,
    faults: &[Fault],
) -> Result<(), AllocError>
    ensures { OnOk result ((each : List ℕ) × (told.new.items ≡ told.old.items ++ each) × TellsEach is_painted file.now (lines text.now) faults.now each) }
{
    let [fault, rest @ ..] = faults else {
        return Ok(());
    };
    let one = fault_message(alloc, is_painted, file, text, fault.line, fault.why, meant)?;
    push_words(told, "\n")?;
    told.extend_from_slice(one.as_slice())?;
    push_each(told, alloc, is_painted, file, text, meant, rest)?;
    Ok(())
}

/// Adds what is told behind the first fault.
fn push_others(
    told: &mut Vec<u8>,
    alloc: Global,
    is_painted: bool,
    file: &str,
    text: &[u8],
    meant: Meant,
    faults: &[Fault],
    is_more: bool,
) -> Result<(), AllocError>
    ensures { OnOk result ((others : List ℕ) × (told.new.items ≡ told.old.items ++ others) × TellsOthers is_painted file.now (lines text.now) faults.now is_more others) }
{
    if faults.is_empty() {
        return Ok(());
    }
    push_each(told, alloc, is_painted, file, text, meant, faults)?;
    push_words(told, "\n")?;
    push_faults(told, faults.len().saturating_add(1), is_more)?;
    Ok(())
}

/// What is told of the text of a program or a trace that has this fault: what is wrong, as [`fault_message`] tells it, and the same of each
/// fault behind it that can be told apart, at most 20 in all, with their number where there are several.
///
/// Errors where there is no memory.
pub fn faults_message(
    alloc: Global,
    is_painted: bool,
    file: &str,
    text: &[u8],
    meant: Meant,
    first: Fault,
) -> Result<Vec<u8>, AllocError>
    requires { HasFault meant text.now first }
    ensures { IfOk result (λ told. TellsFaults is_painted file.now meant text.now first told.items) }
{
    let others = list_others(alloc, meant, text, first)?;
    let mut told = fault_message(alloc, is_painted, file, text, first.line, first.why, meant)?;
    push_others(
        &mut told,
        alloc,
        is_painted,
        file,
        text,
        meant,
        others.faults.as_slice(),
        others.is_more,
    )?;
    Ok(told)
}
