//! Views of reducers, and the monoids that combine them.

ghost use Rattle.std.specs.Prelude.{◌≡◌, ◌↔◌, IsTrue};
ghost use Rattle.reducer_views.specs.Products.{FitsMonoid};
ghost use Rattle.model_reducers.specs.Products.{identity_of, view_number, product_of, put_view, update_view};

use model_reducers::{Monoid, View};

/// The view of a strand that has gathered nothing.
pub fn identity(monoid: Monoid) -> View
    ensures view { result ≡ identity_of monoid }
    ensures fits { FitsMonoid monoid result }
{
    match monoid {
        Monoid::Sum | Monoid::Max => View::One(0),
        Monoid::Min => View::One(u64::MAX),
        Monoid::Last => View::Nothing,
        Monoid::Digits => View::Pair(1, 0),
    }
}

/// The view that an update combines on the right.
pub fn of_update(monoid: Monoid, value: u64) -> View
    ensures view { result ≡ update_view monoid value }
    ensures fits { FitsMonoid monoid result }
{
    match monoid {
        Monoid::Digits => View::Pair(31, value),
        _ => View::One(value),
    }
}

/// The view that a put leaves.
pub fn of_put(monoid: Monoid, value: u64) -> View
    ensures view { result ≡ put_view monoid value }
    ensures fits { FitsMonoid monoid result }
{
    match monoid {
        Monoid::Digits => View::Pair(1, value),
        _ => View::One(value),
    }
}

/// The product of two views, the serially earlier one on the left.
pub fn combine(monoid: Monoid, left: View, right: View) -> View
    requires left_fits { FitsMonoid monoid left }
    requires right_fits { FitsMonoid monoid right }
    ensures view { result ≡ product_of monoid left right }
    ensures fits { FitsMonoid monoid result }
{
    product(monoid, left, right)
}

/// The same product, which of views that do not fit is the one on the right, or the other where that is `Nothing`.
pub fn product(monoid: Monoid, left: View, right: View) -> View
    ensures { result ≡ product_of monoid left right }
{
    match (monoid, left, right) {
        (Monoid::Sum, View::One(left), View::One(right)) => View::One(left.wrapping_add(right)),
        (Monoid::Min, View::One(left), View::One(right)) => View::One(left.min(right)),
        (Monoid::Max, View::One(left), View::One(right)) => View::One(left.max(right)),
        (Monoid::Digits, View::Pair(shift, left), View::Pair(more, right)) => View::Pair(
            shift.wrapping_mul(more),
            left.wrapping_mul(more).wrapping_add(right),
        ),
        (_, left, View::Nothing) => left,
        (_, _, right) => right,
    }
}

/// The number that a get gives, where the view has one.
pub fn value(view: View) -> Option<u64>
    ensures { result ≡ view_number view }
{
    match view {
        View::Nothing => None,
        View::One(number) | View::Pair(_, number) => Some(number),
    }
}

/// Whether the view is one of the monoid.
pub fn fits(monoid: Monoid, view: View) -> bool
    ensures { IsTrue result ↔ FitsMonoid monoid view }
{
    match view {
        View::Nothing => monoid == Monoid::Last,
        View::One(_) => monoid != Monoid::Digits,
        View::Pair(_, _) => monoid == Monoid::Digits,
    }
}
