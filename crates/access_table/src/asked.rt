//! Which acts are accesses, and of what.

ghost use Rattle.std.specs.Prelude.{◌≡◌};
ghost use Rattle.model_accesses.specs.Asking.{access_asked};

use crate::access_table;
use model_accesses::{Act, Asked, Kind};

/// The access that an act asks for, or None where it is an act of control.
pub fn asked_by(act: Act) -> Option<Asked>
    ensures { result ≡ access_asked act }
{
    macro_rules! accesses {
        ([] $({ $kind:ident $($rest:tt)* })*) => {
            match act {
                $(Act::$kind(place, ..) => Some(Asked { kind: Kind::$kind, place }),)*
                _ => None,
            }
        };
    }
    access_table!(accesses [])
}
