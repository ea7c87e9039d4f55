//! Worked views, with values from the definitions of the monoids.

ghost use Rattle.std.specs.Prelude.{◌≡◌, ◌<◌, IsTrue, length};

use crate::checks::equal;
use model_reducers::Monoid;
use reducer_views::{View, Views, combine, fits, identity, of_put, of_update, value};
use sp_labels::Spawned;
use std::alloc::Global;
use std::test::Fail;

/// Two views of a monoid, and their product.
type Product = (Monoid, View, View, View);

/// Whether the identity changes a view on neither side.
fn is_neutral(monoid: Monoid, number: u64) -> bool {
    let view = of_update(monoid, number);
    let left = combine(monoid, identity(monoid), view);
    let right = combine(monoid, view, identity(monoid));
    left == view && right == view
}

/// What a get gives after a put and two updates.
const GATHERED: &[(Monoid, [u64; 3], u64)] = &[
    (Monoid::Sum, [18_446_744_073_709_551_615, 1, 1], 1),
    (Monoid::Min, [9, 4, 6], 4),
    (Monoid::Max, [3, 9, 4], 9),
    (Monoid::Last, [1, 5, 7], 7),
    (Monoid::Digits, [0, 1, 2], 33),
];

const PRODUCTS: &[Product] = &[
    (
        Monoid::Sum,
        View::One(18_446_744_073_709_551_615),
        View::One(2),
        View::One(1),
    ),
    (Monoid::Last, View::One(5), View::Nothing, View::One(5)),
    (
        Monoid::Digits,
        View::Pair(31, 1),
        View::Pair(31, 2),
        View::Pair(961, 33),
    ),
];

const IDENTITIES: &[(Monoid, Option<u64>)] = &[
    (Monoid::Sum, Some(0)),
    (Monoid::Min, Some(18_446_744_073_709_551_615)),
    (Monoid::Max, Some(0)),
    (Monoid::Last, None),
    (Monoid::Digits, Some(0)),
];

const FITS: &[(Monoid, View, bool)] = &[
    (Monoid::Last, View::Nothing, true),
    (Monoid::Sum, View::Nothing, false),
    (Monoid::Max, View::One(7), true),
    (Monoid::Digits, View::One(7), false),
    (Monoid::Digits, View::Pair(1, 7), true),
    (Monoid::Sum, View::Pair(1, 7), false),
];

#[test]
fn views_combine_in_serial_order(rt: HostRuntime) {
    for (monoid, [put, first, second], wanted) in GATHERED {
        let view = combine(*monoid, of_put(*monoid, *put), of_update(*monoid, *first));
        let view = combine(*monoid, view, of_update(*monoid, *second));
        equal(&rt, monoid, &value(view), &Some(*wanted));
    }
    for (monoid, left, right, wanted) in PRODUCTS {
        assert!(rt; fits(*monoid, *left) && fits(*monoid, *right));
        equal(&rt, monoid, &combine(*monoid, *left, *right), wanted);
    }
    reducer_views::laws::monoid_law();
    reducer_views::laws::quiet_law();
    reducer_views::laws::get_law();
}

/// Each identity changes no view, and has the value beside it; each view fits the monoid beside it or not.
#[test]
fn identities_and_forms(rt: HostRuntime) {
    for (monoid, wanted) in IDENTITIES {
        let found = (
            is_neutral(*monoid, 0),
            is_neutral(*monoid, 1),
            is_neutral(*monoid, u64::MAX),
            value(identity(*monoid)),
        );
        equal(&rt, monoid, &found, &(true, true, true, *wanted));
    }
    for (monoid, view, wanted) in FITS {
        equal(&rt, &(*monoid, *view), &fits(*monoid, *view), wanted);
    }
}

/// What is done with the views of a strand or a join, or seen in them. Reducers come first.
enum Act {
    /// The strand spawns a child, in the block with this join, or as the first of its block.
    Spawn(u32, Option<u32>),
    /// The join begins.
    Begin,
    /// The strand updates a reducer.
    Add(u32, u64),
    /// The strand sets a reducer.
    Put(u32, u64),
    /// The strand sees this in a reducer.
    Sees(u32, Option<u64>),
}

use Act::{Add, Begin, Put, Sees, Spawn};

/// A strand or a join, and what it does or sees.
type Step = (u32, Act);

/// Views of so many reducers.
#[derive(Drop)]
struct Run {
    views: Views<Global>,
    count: usize,
    ghost counted: { count ≡ length views.monoids },
}

/// Whether the spawn begins this child and the strand after it, which were not there: the first of its block where no join is given.
fn spawns(run: &mut Run, strand: u32, child: u32, join: Option<u32>) -> bool
    requires room { IsTrue run.old.views.has_room }
    requires there { strand < length run.old.views.strands }
{
    if child == 0 || child > 99 || !run.views.is_there(child - 1) || run.views.is_there(child) {
        return false;
    }
    let spawned = Spawned {
        child,
        next: child + 1,
        join: join.unwrap_or(child + 2),
        first: join.is_none(),
    };
    run.views.spawned(strand, &spawned);
    true
}

/// Whether a step has its outcome. There is memory for it.
fn goes(run: &mut Run, step: &Step) -> bool {
    let (strand, act) = step;
    let strand = *strand;
    if let Sees(reducer, wanted) = act {
        return run.views.is_there(strand)
            && (*reducer as usize) < run.count
            && run.views.get(strand, *reducer) == *wanted;
    }
    if run.views.reserve_event().is_err() || !run.views.has_room() || !run.views.is_there(strand) {
        return false;
    }
    match act {
        Spawn(child, join) => return spawns(run, strand, *child, *join),
        Begin => run.views.joined(strand),
        Add(reducer, number) if (*reducer as usize) < run.count => {
            run.views.update(strand, *reducer, *number);
        }
        Put(reducer, number) if (*reducer as usize) < run.count => {
            run.views.put(strand, *reducer, *number);
        }
        _ => return false,
    }
    true
}

/// A join combines the update of a child, which comes later, with that of its continuation.
macro_rules! join {
    ($monoid:expr, $put:literal, $later:literal, $earlier:literal, $wanted:literal) => {
        (
            &[$monoid],
            &[
                (0, Put(0, $put)),
                (0, Spawn(1, None)),
                (2, Add(0, $later)),
                (1, Add(0, $earlier)),
                (3, Begin),
                (3, Sees(0, Some($wanted))),
            ],
        )
    };
}

/// Reducers, and steps of strands and joins.
const RUNS: &[(&[Monoid], &[Step])] = &[
    // A join combines in order of spawning.
    join!(Monoid::Last, 1, 7, 5, 7),
    join!(Monoid::Min, 9, 6, 4, 4),
    join!(Monoid::Digits, 0, 2, 1, 33),
    // The child that returns first is not combined first.
    (
        &[Monoid::Last],
        &[
            (0, Put(0, 1)),
            (0, Spawn(1, None)),
            (2, Spawn(4, Some(3))),
            (1, Add(0, 5)),
            (4, Add(0, 7)),
            (3, Begin),
            (3, Sees(0, Some(7))),
        ],
    ),
    // A put in a child is gone on with.
    (
        &[Monoid::Sum],
        &[
            (0, Spawn(1, None)),
            (1, Put(0, 5)),
            (1, Spawn(4, None)),
            (4, Add(0, 1)),
            (6, Begin),
            (6, Sees(0, Some(6))),
            (2, Sees(0, Some(0))),
        ],
    ),
    // Other strands keep their views.
    (
        &[Monoid::Sum],
        &[
            (0, Put(0, 1)),
            (0, Spawn(1, None)),
            (3, Begin),
            (3, Sees(0, Some(1))),
        ],
    ),
    (
        &[Monoid::Sum],
        &[
            (0, Spawn(1, None)),
            (1, Put(0, 5)),
            (2, Spawn(4, Some(3))),
            (1, Sees(0, Some(5))),
        ],
    ),
    // A strand sees its own updates.
    (
        &[Monoid::Sum],
        &[
            (0, Sees(0, Some(0))),
            (0, Put(0, 18_446_744_073_709_551_615)),
            (0, Add(0, 2)),
            (0, Sees(0, Some(1))),
        ],
    ),
    (
        &[Monoid::Max],
        &[
            (0, Put(0, 3)),
            (0, Add(0, 9)),
            (0, Add(0, 4)),
            (0, Sees(0, Some(9))),
        ],
    ),
    (&[Monoid::Last], &[(0, Sees(0, None))]),
    // Reducers keep apart.
    (
        &[Monoid::Sum, Monoid::Sum, Monoid::Sum, Monoid::Sum],
        &[
            (0, Add(2, 3000)),
            (0, Spawn(1, None)),
            (1, Add(0, 1)),
            (1, Add(2, 20)),
            (1, Add(3, 300)),
            (2, Add(3, 5)),
            (2, Add(1, 7)),
            (2, Add(2, 9)),
            (2, Sees(0, Some(0))),
            (3, Begin),
            (3, Sees(0, Some(1))),
            (3, Sees(1, Some(7))),
            (3, Sees(2, Some(3029))),
            (3, Sees(3, Some(305))),
        ],
    ),
];

/// New views of the reducers go each run step by step.
#[test]
fn strands_keep_their_views_and_joins_combine_them(rt: HostRuntime) -> Result<(), Fail> {
    for (monoids, steps) in RUNS {
        let mut run = Run {
            views: Views::new(rt.alloc(), monoids)?,
            count: monoids.len(),
        };
        assert!(rt; !run.views.has_room());
        for (place, step) in steps.iter().enumerate() {
            assert!(rt; goes(&mut run, step), "step {place}");
        }
    }
    Ok(())
}
