//! The numbers of entries put into a slice, which mostly go up by one.

ghost use Rattle.std.specs.Prelude.{◌≡◌, ◌+◌, ◌/◌, ◌≤◌, ◌++◌, decimal, length, take};

use crate::slice_text::{put_bytes, put_few, put_number, put_pair};
use std::marker::Model;

/// How many bytes are put at once: more than a number has.
const WIDTH: usize = 24;

/// The digits of the last number that was put, but for its last two: of a hundred numbers behind it all but one begin with them too. It
/// changes nothing but how long it takes to put a number. Contracts see the hundredth of that number.
#[derive(Drop)]
pub struct DigitCache {
    above: u64,
    digits: [u8; WIDTH],
    length: usize,
}

impl Model for DigitCache {
    ghost use Rattle.std.specs.Prelude.{◌≡◌, ◌≤◌, take};
    ghost use Rattle.std.specs.Prelude.{ℕ};
    ghost use Rattle.text_buffers.specs.Rooms.{number_room};
    ghost use Rattle.verdict_lines.specs.Counted.{leading};

    ghost Value = { ℕ };

    ghost view = { λ counted. counted.above };

    ghost invariant = { λ counted. (take counted.length counted.digits ≡ leading counted.above) × (counted.length ≤ number_room) };
}

impl DigitCache {
    /// No number was put.
    pub fn new() -> DigitCache
        ensures { result ≡ 0 }
    {
        DigitCache {
            above: 0,
            digits: [0; WIDTH],
            length: 0,
        }
    }

    /// Takes in the digits of this number.
    #[cold]
    #[inline(never)]
    fn renew(&mut self, above: u64)
        ensures { self.new ≡ above }
    {
        self.length = if above == 0 {
            0
        } else {
            put_number(&mut self.digits, 0, above)
        };
        self.above = above;
    }

    /// Puts a number at a place of a slice, and answers the place behind it. What stands before the place stays, and some bytes behind the
    /// number are lost.
    #[inline(always)]
    pub fn put(&mut self, out: &mut [u8], at: usize, number: u64) -> usize
        requires room { at + 24 ≤ length out.old }
        ensures end { result ≤ at + 22 }
        ensures len { length out.new ≡ length out.old }
        ensures put { take result out.new ≡ take at out.old ++ decimal number }
    {
        let above = number / 100;
        if above != self.above {
            self.renew(above);
        }
        if above == 0 {
            return put_few(out, at, number);
        }
        put_bytes(out, at, &self.digits);
        let end = at + self.length;
        put_pair(out, end, number % 100);
        end + 2
    }
}
