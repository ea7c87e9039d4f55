//! In which frames a strand stands.

ghost use Rattle.std.specs.Prelude.{◌≡◌, ◌<◌, ◌≤◌, ◌++◌, ℕ, suc, List, length, IfOk};
ghost use Rattle.model_histories.specs.Entries.{Entries};
ghost use Rattle.race_pairs.specs.Frames.{frames};
ghost use Rattle.race_pairs.specs.Lineages.{Encloses, IsNumberAt, Begins, AreKept, AreSomeKept};

use crate::kept::{Frame, Strand, Turn};
use std::alloc::{AllocError, Global};

/// The place of the frame in which a strand begins.
pub(crate) fn first_place(opened: &[Frame], strand: u32, maker: u32) -> u32
    requires { (first : ℕ) × Begins opened.now strand maker first }
    ensures { (first : ℕ) → Begins opened.now strand maker first → result ≡ first }
{
    if maker == 0 {
        return 0;
    }
    let frame = opened[maker as usize - 1];
    match frame.opener.spawned {
        Some(spawned) if spawned.child == strand => maker,
        _ => frame.outer,
    }
}

/// The place of the frame in which a strand stands.
pub(crate) fn place_now(opened: &[Frame], turns: &[Turn], strands: &[Strand], strand: u32) -> u32
    requires kept { AreSomeKept opened.now turns.now strands.now }
    requires strand { strand < length strands.now }
    ensures { (entries : Entries) → AreKept opened.now turns.now strands.now entries → Encloses opened.now result (frames entries strand) }
{
    let it = strands[strand as usize];
    if it.turn == 0 {
        return first_place(opened, strand, it.maker);
    }
    turns[it.turn as usize - 1].frame
}

/// The place of the frame in which a strand began, where that was before the entry with this number.
fn place_first(opened: &[Frame], strand: u32, maker: u32, number: usize) -> u32
    requires { (first : ℕ) × Begins opened.now strand maker first }
    ensures begun { (first made : ℕ) → Begins opened.now strand maker first → IsNumberAt opened.now maker made → made < number → result ≡ first }
    ensures none { (made : ℕ) → IsNumberAt opened.now maker made → number ≤ made → result ≡ 0 }
{
    if maker != 0 && opened[maker as usize - 1].opener.number as usize >= number {
        return 0;
    }
    first_place(opened, strand, maker)
}

/// The place of the frame in which a strand stood before the entry with this number.
pub(crate) fn place_before(
    opened: &[Frame],
    turns: &[Turn],
    strands: &[Strand],
    strand: u32,
    number: usize,
) -> u32
    requires { AreSomeKept opened.now turns.now strands.now }
    ensures { (later earlier : Entries) → AreKept opened.now turns.now strands.now (later ++ earlier) → number ≡ suc (length earlier) →
        Encloses opened.now result (frames earlier strand) }
{
    if strand as usize >= strands.len() {
        return 0;
    }
    let it = strands[strand as usize];
    let mut at = it.turn;
    'back: while at != 0 {
        let turn = turns[at as usize - 1];
        if (turn.number as usize) < number {
            return turn.frame;
        }
        at = turn.before;
    }
    place_first(opened, strand, it.maker, number)
}

/// The numbers of the openers of the frame at a place and of those round it, the innermost first. Errors where there is no memory.
pub(crate) fn numbers_from(
    alloc: Global,
    opened: &[Frame],
    place: u32,
) -> Result<Vec<usize>, AllocError>
    requires { (numbers : List ℕ) × Encloses opened.now place numbers }
    ensures { IfOk result (λ found. (numbers : List ℕ) → Encloses opened.now place numbers → found.items ≡ numbers) }
{
    let mut found = Vec::new(alloc);
    let mut at = place;
    'outward: while at != 0 {
        let frame = opened[at as usize - 1];
        found.push(frame.opener.number as usize)?;
        at = frame.outer;
    }
    Ok(found)
}
