//! Jumps on the way up from a strand, by which the strand at each depth is found in logarithmic time.

ghost use Rattle.std.specs.Prelude.{◌≡◌, ◌++◌, ◌∷◌, IfOk};
ghost use Rattle.model_strands.specs.History.{split};
ghost use Rattle.model_histories.specs.declared.answer.Entry.{Entry};
ghost use Rattle.model_histories.specs.Entries.{Entries};
ghost use Rattle.race_pairs.specs.Growths.{IsNext};
ghost use Rattle.race_pairs.specs.Jumps.{IsUp, AreRaised, CanRaise, IsJumpOf, jumps_made};

use crate::kept::Jump;
use model_strands::Spawned;
use std::alloc::AllocError;

/// Where the strands jump to that a strand spawns: to where its jump jumps, where both jumps pass equally many strands, and else to the
/// strand itself.
fn jump_below(jumps: &[Jump], spawner: u32) -> u32
    requires { (entries : Entries) × CanRaise jumps.now entries spawner }
    ensures { (entries : Entries) → CanRaise jumps.now entries spawner → IsUp entries result spawner }
{
    let it = jumps[spawner as usize];
    let near = it.to;
    let over = jumps[near as usize];
    let far = over.to;
    let beyond = jumps[far as usize];
    let first = it.depth - over.depth;
    let second = over.depth - beyond.depth;
    if first == second { far } else { spawner }
}

/// The jump of the strands that a strand spawns.
fn jump_of(jumps: &[Jump], spawner: u32) -> Jump
    requires { (entries : Entries) × CanRaise jumps.now entries spawner }
    ensures { (entries : Entries) → CanRaise jumps.now entries spawner → IsJumpOf jumps.now entries spawner result }
{
    let depth = jumps[spawner as usize].depth + 1;
    let to = jump_below(jumps, spawner);
    Jump { depth, to }
}

/// Adds the jump of the strands that a spawn makes: three where it opens a block, else two.
fn push_jumps(jumps: &mut Vec<Jump>, made: Jump, opens: bool) -> Result<(), AllocError>
    ensures { IfOk result (λ _. jumps.new.items ≡ jumps.old.items ++ jumps_made opens made) }
{
    jumps.push(made)?;
    jumps.push(made)?;
    if opens {
        jumps.push(made)?;
    }
    Ok(())
}

/// Adds the jumps of the strands that a strand spawns. Errors where there is no memory.
pub(crate) fn add_jumps(
    jumps: &mut Vec<Jump>,
    spawner: u32,
    spawned: Spawned,
) -> Result<(), AllocError>
    requires { (entries : Entries) × CanRaise jumps.old.items entries spawner }
    ensures { IfOk result (λ _. (entries : Entries) (entry : Entry) → CanRaise jumps.old.items entries spawner →
        IsNext entries entry (split spawner spawned.child spawned.next spawned.join spawned.first) → AreRaised jumps.new.items (entry ∷ entries)) }
{
    let made = jump_of(jumps.as_slice(), spawner);
    push_jumps(jumps, made, spawned.first)
}
