//! Whether two shapes are the same.

ghost use Rattle.std.specs.Prelude.{◌≡◌, ◌↔◌, IsTrue};
ghost use Rattle.race_gate.specs.Shapes.{shape_of};

use std::alloc::Allocator;
use text_words::{Monoid, Shape};

fn is_same_monoid(one: Monoid, other: Monoid) -> bool
    ensures { IsTrue result ↔ one ≡ other }
{
    one == other
}

fn are_same_monoids(one: &[Monoid], other: &[Monoid]) -> bool
    ensures { IsTrue result ↔ one.now ≡ other.now }
{
    if one.len() != other.len() {
        return false;
    }
    for at in 0..one.len() {
        if !is_same_monoid(one[at], other[at]) {
            return false;
        }
    }
    true
}

/// Whether the two declare as many cells, and the same monoids.
pub fn is_same_shape<A: Allocator, B: Allocator>(one: &Shape<A>, other: &Shape<B>) -> bool
    ensures { IsTrue result ↔ shape_of one.now ≡ shape_of other.now }
{
    one.cells == other.cells && are_same_monoids(one.monoids.as_slice(), other.monoids.as_slice())
}
