//! The spawn or call with a number.

ghost use Rattle.std.specs.Prelude.{◌<◌, ◌≤◌, length, MatchOption};
ghost use Rattle.std.specs.List.Sorted.{IsPartitionPoint};
ghost use Rattle.model_histories.specs.Entries.{Entries};
ghost use Rattle.race_pairs.specs.Openers.{IsOpener, IsNoOpener, AreOpeners};

use crate::kept::{Frame, Opener};

/// How many openers come before the entry with this number.
fn count_before(opened: &[Frame], number: usize) -> usize
    requires { (entries : Entries) × AreOpeners entries opened.now }
    ensures bound { result ≤ length opened.now }
    ensures point { IsPartitionPoint (λ frame. frame.opener.number < number) (λ frame. number ≤ frame.opener.number) opened.now result }
{
    opened.partition_point(|frame| (frame.opener.number as usize) < number)
}

/// The opener that is the entry with this number.
pub(crate) fn find_opener(opened: &[Frame], number: usize) -> Option<Opener>
    requires { (entries : Entries) × AreOpeners entries opened.now }
    ensures { (entries : Entries) → AreOpeners entries opened.now → MatchOption result (IsNoOpener entries number) (IsOpener entries number) }
{
    let before = count_before(opened, number);
    if before == opened.len() {
        return None;
    }
    let opener = opened[before].opener;
    if opener.number as usize == number {
        Some(opener)
    } else {
        None
    }
}
