//! Where the strand that goes on behind a spawn comes to an access.

ghost use Rattle.std.specs.Prelude.{ℕ, List, [], ◌∷◌, ◌++◌};
ghost use Rattle.race_pairs.specs.Onward.{IsLeast, IsToward};

/// The least of the numbers above the spawn's, with one number more.
fn nearer(spawn: usize, least: Option<usize>, number: usize) -> Option<usize>
    ensures { (numbers : List ℕ) → IsLeast spawn numbers least → IsLeast spawn (numbers ++ number ∷ []) result }
{
    if number <= spawn {
        return least;
    }
    match least {
        Some(other) => Some(other.min(number)),
        None => Some(number),
    }
}

/// Of the spawns and calls that enclose an access, the first behind a spawn, or the access itself where there is none. All go by the
/// numbers of their entries.
pub fn toward(spawn: usize, access: usize, chain: &[usize]) -> usize
    ensures { IsToward spawn access chain.now result }
{
    let mut least = None;
    for number in chain {
        least = nearer(spawn, least, *number);
    }
    least.unwrap_or(access)
}
