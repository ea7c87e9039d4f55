//! One entry more.

ghost use Rattle.std.specs.Prelude.{◌≡◌, ◌<◌, ◌++◌, ℕ, suc, List, [], ◌∷◌, length, IfOk};
ghost use Rattle.model_strands.specs.History.{split, call, resumed};
ghost use Rattle.model_histories.specs.declared.answer.Entry.{Entry};
ghost use Rattle.model_histories.specs.Entries.{Entries};
ghost use Rattle.race_pairs.specs.Frames.{behind};
ghost use Rattle.race_pairs.specs.Lineages.{Encloses, AreKept};
ghost use Rattle.race_pairs.specs.Steps.{IsStep};
ghost use Rattle.race_pairs.specs.Growths.{CanGrow, IsNext, IsFrameMore, IsTurnMore, strands_made};
ghost use Rattle.model_histories.specs.Shapes.{most_entries};

use crate::frames::place_now;
use crate::kept::{Frame, Opener, Strand, Turn};
use model_accesses::Act;
use model_strands::Spawned;
use race_gate::{Answer, Entry};
use std::alloc::AllocError;

/// What an entry adds to a lineage.
#[derive(Clone, Copy)]
pub enum Step {
    /// A spawn that began these.
    Spawns(Spawned),
    /// A call.
    Calls,
    /// A return by which the strand goes on in the caller.
    Returns,
    /// Nothing.
    Stays,
}

/// What an entry adds to a lineage.
pub(crate) fn step_of(entry: Entry) -> Step
    ensures { IsStep entry result }
{
    match (entry.request.act, entry.answer) {
        (Act::Spawn, Answer::Split(spawned)) => Step::Spawns(spawned),
        (Act::Call, Answer::Same) => Step::Calls,
        (Act::Return, Answer::Resumed) => Step::Returns,
        _ => Step::Stays,
    }
}

/// Adds the frame that an opener opens where its strand stands, and tells the frame's place.
fn add_frame(
    opened: &mut Vec<Frame>,
    turns: &[Turn],
    strands: &[Strand],
    opener: Opener,
) -> Result<u32, AllocError>
    requires { CanGrow opened.old.items turns.now strands.now opener.strand }
    ensures place { IfOk result (λ place. place ≡ suc (length opened.old.items)) }
    ensures added { IfOk result (λ place. IsFrameMore opened.old.items turns.now strands.now opener opened.new.items) }
{
    let outer = place_now(opened.as_slice(), turns, strands, opener.strand);
    opened.push(Frame { opener, outer })?;
    Ok(opened.len() as u32)
}

/// Adds the strands that the spawn of the frame at a place makes: three where it opens a block, else two.
fn add_strands(strands: &mut Vec<Strand>, maker: u32, opens: bool) -> Result<(), AllocError>
    ensures { IfOk result (λ _. strands.new.items ≡ strands.old.items ++ strands_made opens maker) }
{
    let made = Strand { maker, turn: 0 };
    strands.push(made)?;
    strands.push(made)?;
    if opens {
        strands.push(made)?;
    }
    Ok(())
}

/// Adds a turn of a strand into the frame at a place.
fn add_turn(
    turns: &mut Vec<Turn>,
    strands: &mut Vec<Strand>,
    strand: u32,
    number: u32,
    frame: u32,
) -> Result<(), AllocError>
    requires strand { strand < length strands.old.items }
    requires few { length turns.old.items < most_entries }
    ensures { IfOk result (λ _. IsTurnMore turns.old.items strands.old.items (record { strand = strand; number = number; frame = frame })
        turns.new.items strands.new.items) }
{
    let it = strands[strand as usize];
    turns.push(Turn {
        number,
        frame,
        before: it.turn,
    })?;
    strands[strand as usize] = Strand {
        maker: it.maker,
        turn: turns.len() as u32,
    };
    Ok(())
}

/// The place of the frame in which the frame at this place was opened.
fn outer_of(opened: &[Frame], place: u32) -> u32
    requires { (numbers : List ℕ) × Encloses opened.now place numbers }
    ensures { (numbers : List ℕ) → Encloses opened.now place numbers → Encloses opened.now result (behind numbers) }
{
    if place == 0 {
        0
    } else {
        opened[place as usize - 1].outer
    }
}

/// Adds the spawn with this number.
pub(crate) fn add_spawn(
    opened: &mut Vec<Frame>,
    turns: &[Turn],
    strands: &mut Vec<Strand>,
    number: u32,
    spawner: u32,
    spawned: Spawned,
) -> Result<(), AllocError>
    requires { CanGrow opened.old.items turns.now strands.old.items spawner }
    ensures { IfOk result (λ _. (entries : Entries) (entry : Entry) → AreKept opened.old.items turns.now strands.old.items entries →
        number ≡ suc (length entries) → IsNext entries entry (split spawner spawned.child spawned.next spawned.join spawned.first) →
        AreKept opened.new.items turns.now strands.new.items (entry ∷ entries)) }
{
    let opener = Opener {
        number,
        strand: spawner,
        spawned: Some(spawned),
    };
    let maker = add_frame(opened, turns, strands.as_slice(), opener)?;
    add_strands(strands, maker, spawned.first)
}

/// Adds the call with this number.
pub(crate) fn add_call(
    opened: &mut Vec<Frame>,
    turns: &mut Vec<Turn>,
    strands: &mut Vec<Strand>,
    number: u32,
    strand: u32,
) -> Result<(), AllocError>
    requires { CanGrow opened.old.items turns.old.items strands.old.items strand }
    ensures { IfOk result (λ _. (entries : Entries) (entry : Entry) → AreKept opened.old.items turns.old.items strands.old.items entries →
        number ≡ suc (length entries) → IsNext entries entry (call strand) →
        AreKept opened.new.items turns.new.items strands.new.items (entry ∷ entries)) }
{
    let opener = Opener {
        number,
        strand,
        spawned: None,
    };
    let frame = add_frame(opened, turns.as_slice(), strands.as_slice(), opener)?;
    add_turn(turns, strands, strand, number, frame)
}

/// Adds the return with this number, by which a strand goes on in the caller.
pub(crate) fn add_return(
    opened: &[Frame],
    turns: &mut Vec<Turn>,
    strands: &mut Vec<Strand>,
    number: u32,
    strand: u32,
) -> Result<(), AllocError>
    requires { CanGrow opened.now turns.old.items strands.old.items strand }
    ensures { IfOk result (λ _. (entries : Entries) (entry : Entry) → AreKept opened.now turns.old.items strands.old.items entries →
        number ≡ suc (length entries) → IsNext entries entry (resumed strand) →
        AreKept opened.now turns.new.items strands.new.items (entry ∷ entries)) }
{
    let place = place_now(opened, turns.as_slice(), strands.as_slice(), strand);
    add_turn(turns, strands, strand, number, outer_of(opened, place))
}
