//! What has become of a strand.

ghost use Rattle.std.specs.Prelude.{◌≡◌, ◌+◌, ◌∷◌, ℕ, true, reverse, MatchOption, if◌then◌else◌};
ghost use Rattle.model_strands.specs.declared.spawned.Spawned.{Spawned};
ghost use Rattle.model_strands.specs.History.{split, joined, History};
ghost use Rattle.model_strands.specs.Strands.{Status, over, running, status, unused};
ghost use Rattle.model_strands.specs.Updated.{updated};
ghost use Rattle.model_strands.specs.Legal.{Legal};
ghost use Rattle.model_histories.specs.Entries.{Entries, control_part};
ghost use Rattle.model_histories.specs.Legal.{IsLegal};
ghost use Rattle.model_histories.specs.Shapes.{Shape};
ghost use Rattle.race_pairs.specs.Makers.{Began};
ghost use Rattle.race_pairs.specs.Standings.{status_behind, IsStanding};

use model_accesses::Act;
use model_strands::Spawned;
use race_gate::{Answer, Entry};

/// What has become of a strand behind some entries.
#[derive(Clone, Copy)]
pub enum Standing {
    /// It runs.
    Running,
    /// It ended at the entry with this number, from 1 on.
    Ended(usize),
    /// The spawn with this number, from 1 on, kept it back as the join of the block that it opened. It has not begun.
    Reserved(usize),
    /// No spawn has given this number.
    Absent,
}

/// What an entry makes of a strand.
#[derive(Clone, Copy)]
pub enum Effect {
    /// It begins.
    Begins,
    /// It ends.
    Ends,
    /// It is kept back as a join.
    Reserves,
    /// It stays as it was.
    Stays,
}

/// What the end of a strand makes of this one.
fn end_effect(ended: u32, strand: u32) -> Effect
    ensures status { (old : ℕ → Status) → updated old ended over strand ≡ status_behind result (old strand) }
    ensures ends { result ≡ Effect.Ends → strand ≡ ended }
    ensures reserves { result ≡ Effect.Reserves → ⊥ }
{
    if strand == ended {
        Effect::Ends
    } else {
        Effect::Stays
    }
}

/// What the end of a strand that another one follows makes of this one.
fn follow_effect(ended: u32, begun: u32, strand: u32) -> Effect
    ensures status { (old : ℕ → Status) → updated (updated old ended over) begun running strand ≡ status_behind result (old strand) }
    ensures ends { result ≡ Effect.Ends → strand ≡ ended }
    ensures reserves { result ≡ Effect.Reserves → ⊥ }
{
    if strand == begun {
        Effect::Begins
    } else {
        end_effect(ended, strand)
    }
}

/// What a spawn makes of a strand.
fn split_effect(spawner: u32, spawned: Spawned, strand: u32) -> Effect
    ensures status { (history : History) →
        status (split spawner spawned.child spawned.next spawned.join spawned.first ∷ history) strand ≡ status_behind result (status history strand) }
    ensures ends { result ≡ Effect.Ends → strand ≡ spawner }
    ensures reserves { result ≡ Effect.Reserves → (spawned.first ≡ true) × (spawned.join ≡ strand) }
{
    if spawned.first && strand == spawned.join {
        Effect::Reserves
    } else if strand == spawned.next {
        Effect::Begins
    } else {
        follow_effect(spawner, spawned.child, strand)
    }
}

/// What an entry makes of a strand.
fn effect_of(entry: Entry, strand: u32) -> Effect
    ensures status { (entries : Entries) →
        status (control_part (entry ∷ entries)) strand ≡ status_behind result (status (control_part entries) strand) }
    ensures ends { result ≡ Effect.Ends → strand ≡ entry.request.strand }
    ensures reserves { result ≡ Effect.Reserves → (spawned : Spawned) × Began entry spawned × (spawned.first ≡ true) × (spawned.join ≡ strand) }
{
    let ended = entry.request.strand;
    match (entry.request.act, entry.answer) {
        (Act::Spawn, Answer::Split(spawned)) => split_effect(ended, spawned, strand),
        (Act::Sync, Answer::Joined(join)) => follow_effect(ended, join, strand),
        (Act::Sync, Answer::Waits) => end_effect(ended, strand),
        (Act::Return, Answer::Ended) => end_effect(ended, strand),
        (Act::Return, Answer::EndedJoined(join)) => follow_effect(ended, join, strand),
        (Act::Return, Answer::Finished) => end_effect(ended, strand),
        _ => Effect::Stays,
    }
}

/// What has become of the strand with this number behind these entries, which are given from the oldest on. Its time is linear in the
/// entries.
pub fn standing_of(entries: &[Entry], strand: u32) -> Standing
    requires { (shape : Shape) × IsLegal shape (reverse entries.now) }
    ensures { IsStanding (reverse entries.now) strand result }
{
    let mut at = entries.len();
    'back: while at != 0 {
        match effect_of(entries[at - 1], strand) {
            Effect::Begins => return Standing::Running,
            Effect::Ends => return Standing::Ended(at),
            Effect::Reserves => return Standing::Reserved(at),
            Effect::Stays => at -= 1,
        }
    }
    if strand == 0 {
        Standing::Running
    } else {
        Standing::Absent
    }
}

/// What an entry began, where it is a spawn.
fn spawned_by(entry: Entry) -> Option<Spawned>
    ensures { MatchOption result ((spawned : Spawned) → Began entry spawned → ⊥) (Began entry) }
{
    match (entry.request.act, entry.answer) {
        (Act::Spawn, Answer::Split(spawned)) => Some(spawned),
        _ => None,
    }
}

/// The least number that no strand and no join has behind a spawn that began these.
fn count_behind(spawned: Spawned) -> usize
    ensures { result ≡ spawned.child + (if spawned.first then 3 else 2) }
{
    if spawned.first {
        spawned.child as usize + 3
    } else {
        spawned.child as usize + 2
    }
}

/// How many numbers strands and joins have behind these entries, which are given from the oldest on: the least number that none has.
/// Its time is linear in the entries.
pub fn count_strands(entries: &[Entry]) -> usize
    requires { Legal (control_part (reverse entries.now)) }
    ensures { result ≡ unused (control_part (reverse entries.now)) }
{
    let mut at = entries.len();
    'back: while at != 0 {
        if let Some(spawned) = spawned_by(entries[at - 1]) {
            return count_behind(spawned);
        }
        at -= 1;
    }
    1
}
