//! Words and numbers put into a slice, one behind the other: what stands before the place stays.

ghost use Rattle.std.specs.Prelude.{◌≡◌, ◌++◌, ◌∷◌, ◌+◌, ◌<◌, ◌≤◌, ◌/◌, ◌%◌, [], decimal, length, take};

use itoa::Buffer;

/// The digits of the numbers below 100, two for each.
static PAIRS: [u8; 200] =
    *b"00010203040506070809101112131415161718192021222324252627282930313233343536373839404142434445464748495051525354555657585960616263646566676869707172737475767778798081828384858687888990919293949596979899";

/// Puts a word at a place of a slice, and answers the place behind it. What stands before the place stays.
#[inline(always)]
pub fn put_word(out: &mut [u8], at: usize, word: &str) -> usize
    requires room { at + length word.now ≤ length out.old }
    ensures end { result ≡ at + length word.now }
    ensures len { length out.new ≡ length out.old }
    ensures put { take result out.new ≡ take at out.old ++ word.now }
{
    let end = at + word.len();
    out[at..end].copy_from_slice(word.as_bytes());
    end
}

/// Makes these bytes all that a slice holds. They are written as one value: a copy from slice to slice first asks whether the two lie
/// apart.
#[inline(always)]
fn write_all<const N: usize>(out: &mut [u8], bytes: &[u8; N])
    requires { length out.old ≡ N }
    ensures { out.new ≡ bytes.now }
{
    let Some(place) = out.as_mut_array::<N>() else {
        unreachable!()
    };
    *place = *bytes;
}

/// Puts bytes at a place of a slice, and answers the place behind them. What stands before the place stays.
#[inline(always)]
pub(crate) fn put_bytes<const N: usize>(out: &mut [u8], at: usize, bytes: &[u8; N]) -> usize
    requires room { at + N ≤ length out.old }
    ensures end { result ≡ at + N }
    ensures len { length out.new ≡ length out.old }
    ensures put { take result out.new ≡ take at out.old ++ bytes.now }
{
    write_all(&mut out[at..at + N], bytes);
    at + N
}

/// Puts two digits at a place.
#[inline(always)]
pub(crate) fn put_pair(out: &mut [u8], at: usize, pair: u64)
    requires small { pair < 100 }
    requires room { at + 2 ≤ length out.old }
    ensures len { length out.new ≡ length out.old }
    ensures put { take (at + 2) out.new ≡ take at out.old ++ (48 + pair / 10) ∷ (48 + pair % 10) ∷ [] }
{
    let from = pair as usize * 2;
    let (tens, ones) = (PAIRS[from], PAIRS[from + 1]);
    out[at] = tens;
    out[at + 1] = ones;
}

/// Puts a number below 100 at a place, and answers the place behind it.
#[inline(always)]
fn put_two(out: &mut [u8], at: usize, number: u64) -> usize
    requires small { number < 100 }
    requires room { at + 2 ≤ length out.old }
    ensures end { result ≤ at + 2 }
    ensures len { length out.new ≡ length out.old }
    ensures put { take result out.new ≡ take at out.old ++ decimal number }
{
    if number < 10 {
        out[at] = b'0' + number as u8;
        return at + 1;
    }
    put_pair(out, at, number);
    at + 2
}

/// Puts a number below 100 as [`put_two`] does, in a call of its own.
#[cold]
#[inline(never)]
pub(crate) fn put_few(out: &mut [u8], at: usize, number: u64) -> usize
    requires small { number < 100 }
    requires room { at + 2 ≤ length out.old }
    ensures end { result ≤ at + 2 }
    ensures len { length out.new ≡ length out.old }
    ensures put { take result out.new ≡ take at out.old ++ decimal number }
{
    put_two(out, at, number)
}

/// Puts a number below 10,000 at a place, and answers the place behind it.
#[inline(always)]
fn put_four(out: &mut [u8], at: usize, number: u64) -> usize
    requires small { number < 10000 }
    requires room { at + 4 ≤ length out.old }
    ensures end { result ≤ at + 4 }
    ensures len { length out.new ≡ length out.old }
    ensures put { take result out.new ≡ take at out.old ++ decimal number }
{
    if number < 100 {
        return put_two(out, at, number);
    }
    let end = put_two(out, at, number / 100);
    put_pair(out, end, number % 100);
    end + 2
}

/// Puts a number below 100,000,000 at a place, and answers the place behind it.
#[inline(always)]
fn put_eight(out: &mut [u8], at: usize, number: u64) -> usize
    requires small { number < 100000000 }
    requires room { at + 8 ≤ length out.old }
    ensures end { result ≤ at + 8 }
    ensures len { length out.new ≡ length out.old }
    ensures put { take result out.new ≡ take at out.old ++ decimal number }
{
    if number < 10_000 {
        return put_four(out, at, number);
    }
    let end = put_four(out, at, number / 10_000);
    let low = number % 10_000;
    put_pair(out, end, low / 100);
    put_pair(out, end + 2, low % 100);
    end + 4
}

/// Puts a number of more than eight digits, which few have.
#[cold]
#[inline(never)]
fn put_long(out: &mut [u8], at: usize, number: u64) -> usize
    requires room { at + 20 ≤ length out.old }
    ensures end { result ≤ at + 20 }
    ensures len { length out.new ≡ length out.old }
    ensures put { take result out.new ≡ take at out.old ++ decimal number }
{
    put_word(out, at, Buffer::new().format(number))
}

/// Puts a number at a place, and answers the place behind it.
#[inline(always)]
pub(crate) fn put_number(out: &mut [u8], at: usize, number: u64) -> usize
    requires room { at + 20 ≤ length out.old }
    ensures end { result ≤ at + 20 }
    ensures len { length out.new ≡ length out.old }
    ensures put { take result out.new ≡ take at out.old ++ decimal number }
{
    if number < 100_000_000 {
        return put_eight(out, at, number);
    }
    put_long(out, at, number)
}

/// Puts a number as [`put_number`] does, in a call of its own.
#[inline(never)]
fn put_great(out: &mut [u8], at: usize, number: u64) -> usize
    requires room { at + 20 ≤ length out.old }
    ensures end { result ≤ at + 20 }
    ensures len { length out.new ≡ length out.old }
    ensures put { take result out.new ≡ take at out.old ++ decimal number }
{
    put_number(out, at, number)
}

/// Puts a number as [`put_number`] does, with less code in line: a great one is put by a call.
#[inline(always)]
pub(crate) fn put_mostly_small(out: &mut [u8], at: usize, number: u64) -> usize
    requires room { at + 20 ≤ length out.old }
    ensures end { result ≤ at + 20 }
    ensures len { length out.new ≡ length out.old }
    ensures put { take result out.new ≡ take at out.old ++ decimal number }
{
    if number < 10_000 {
        return put_four(out, at, number);
    }
    put_great(out, at, number)
}
