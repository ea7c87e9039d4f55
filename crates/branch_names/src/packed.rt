//! The names of branches as they are stored.

ghost use Rattle.std.specs.Prelude.{◌≡◌, ◌↔◌, ◌<◌, IsTrue};
ghost use Rattle.branch_names.specs.Names.{Given, IsGiven, Kept, most_numbers, branch_number};
ghost use Rattle.branch_names.specs.Packed.{name_of};

/// How many numbers there are for names. The orders that number the strands are full long before.
pub const MOST_NUMBERS: usize = 2_147_483_648;

/// The name of a strand's branch, in four bytes: twice the number, and one more where it is only kept for a join.
#[derive(Clone, Copy, PartialEq, Eq)]
pub struct Packed {
    code: u32,
}

const _: () = prove!(size_of::<Packed>() == 4);

impl Packed {
    /// The number, given to a strand that has begun.
    #[inline(always)]
    pub fn given(number: u32) -> Packed
        requires { number < most_numbers }
        ensures { name_of result ≡ Given number }
    {
        Packed { code: 2 * number }
    }

    /// The number, kept for a join.
    #[inline(always)]
    pub fn kept(number: u32) -> Packed
        requires { number < most_numbers }
        ensures { name_of result ≡ Kept number }
    {
        Packed {
            code: 2 * number + 1,
        }
    }

    /// The same number, given, since the join has begun.
    #[inline(always)]
    pub fn begun(self) -> Packed
        ensures { name_of result ≡ Given (branch_number (name_of self)) }
    {
        Packed {
            code: self.code - self.code % 2,
        }
    }

    #[inline(always)]
    pub fn is_given(self) -> bool
        ensures { IsTrue result ↔ IsGiven (name_of self) }
    {
        self.code % 2 == 0
    }

    #[inline(always)]
    pub fn number(self) -> u32
        ensures is { result ≡ branch_number (name_of self) }
        ensures fits { result < most_numbers }
    {
        self.code / 2
    }
}
