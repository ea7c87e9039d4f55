//! Lines of traces that are kept: each comes back as it was pushed, on both sides of each bound of the short form.

use packed_trace::TraceLines;
use std::alloc::Global;
use std::test::Fail;
use text_words::{Act, Request, TraceLine};

/// Whether these are the lines, and no others.
pub fn are_lines(lines: &TraceLines<Global>, wanted: &[TraceLine]) -> bool {
    if lines.len() != wanted.len() {
        return false;
    }
    let mut given = lines.iter();
    for line in wanted {
        if given.next() != Some(*line) {
            return false;
        }
    }
    given.next().is_none()
}

/// One behind another, of each kind, and with the greatest numbers that the short form has.
const SHORT: &[TraceLine] = &[
    line!(1, 0, Act::Spawn, 1, false),
    line!(2, 1, Act::Sync, 2, false),
    line!(3, 2, Act::Call, 3, false),
    line!(4, 4_194_302, Act::Return, 4, false),
    line!(5, 4_194_302, Act::Read(1_048_575), 5, false),
    line!(6, 4_194_302, Act::Write(1_048_575, 262_143), 6, false),
    line!(7, 5, Act::Bump(0, 262_143), 7, false),
    line!(8, 6, Act::Update(255, 0), 8, false),
    line!(9, 7, Act::Put(1_048_575, 1), 9, false),
    line!(10, 8, Act::Get(1_048_575), 10, false),
];

/// Each is too much for the short form in one way, but for some between them.
const LONG: &[TraceLine] = &[
    line!(2, 0, Act::Spawn, 2, false),
    line!(3, 4_194_303, Act::Sync, 3, false),
    line!(4, 4_194_304, Act::Call, 4, false),
    line!(5, u32::MAX, Act::Return, 5, false),
    line!(6, 1, Act::Read(1_048_576), 6, false),
    line!(7, 1, Act::Get(u32::MAX), 7, false),
    line!(8, 1, Act::Write(0, 262_144), 8, false),
    line!(9, 1, Act::Bump(u32::MAX, u64::MAX), 9, false),
    line!(10, 1, Act::Update(2, u64::MAX), 10, true),
    line!(11, 1, Act::Put(3, 4), 10, false),
    line!(12, 1, Act::Put(3, 4), 12, false),
    line!(u32::MAX, u32::MAX, Act::Spawn, u32::MAX, true),
    line!(0, 1, Act::Sync, 0, false),
    line!(1, 1, Act::Sync, 1, false),
];

/// What is pushed comes back, and nothing else.
#[test]
fn lines(rt: HostRuntime) -> Result<(), Fail> {
    for lines in [SHORT, LONG] {
        let mut kept = TraceLines::new(rt.alloc());
        assert!(rt; kept.is_empty());
        for line in lines {
            kept.push(*line)?;
        }
        assert!(rt; !kept.is_empty() && are_lines(&kept, lines));
    }
    Ok(())
}
