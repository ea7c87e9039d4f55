//! Traces as text: each kind of line, and the names of cells.

use super::checks::has_cells;
use super::kept::are_lines;
use crate::checks::equal;
use std::test::Fail;
use text_words::{Act, Monoid, Request, TraceLine};
use trace_text::Trace;

/// A text, and its requests.
type Asked = (&'static [u8], &'static [TraceLine]);

const ASKED: &[Asked] = &[
    // Each request.
    (
        b"cilk 2\nmem x\nmem a 4\nreducer g sum\nreducer h min\nspawn 3\ncall 3\nsync 3\nreturn 3\nread 3 a[1]\nwrite 3 x 7\nbump 3 a[3] 8\nupdate 3 h 9\nput 3 g 10\nget 3 h",
        &[
            line!(6, 3, Act::Spawn, 6, false),
            line!(7, 3, Act::Call, 7, false),
            line!(8, 3, Act::Sync, 8, false),
            line!(9, 3, Act::Return, 9, false),
            line!(10, 3, Act::Read(2), 10, false),
            line!(11, 3, Act::Write(0, 7), 11, false),
            line!(12, 3, Act::Bump(4, 8), 12, false),
            line!(13, 3, Act::Update(1, 9), 13, false),
            line!(14, 3, Act::Put(0, 10), 14, false),
            line!(15, 3, Act::Get(1), 15, false),
        ],
    ),
    // A mark, and blanks.
    (
        b"cilk 1\r\nmem x\nspawn 0\nread 1 x # c\n\n  write\t2 x 9 @7\n\r",
        &[
            line!(3, 0, Act::Spawn, 3, false),
            line!(4, 1, Act::Read(0), 4, false),
            line!(6, 2, Act::Write(0, 9), 7, true),
        ],
    ),
    // Of nine names, `xaa` and `yaa` have one hint.
    (
        b"cilk 1\nmem one\nmem xaa 2\nmem yaa\nmem d\nmem e\nmem f\nmem g\nmem h\nreducer ninth sum\nread 3 one\nread 3 xaa[1]\nread 3 yaa\nread 3 h\nget 3 ninth\n",
        &[
            line!(11, 3, Act::Read(0), 11, false),
            line!(12, 3, Act::Read(2), 12, false),
            line!(13, 3, Act::Read(3), 13, false),
            line!(14, 3, Act::Read(8), 14, false),
            line!(15, 3, Act::Get(0), 15, false),
        ],
    ),
];

/// How a trace is printed, which is printed alike, and other texts that mean it.
type Printed = (&'static [u8], &'static [&'static [u8]]);

const PRINTED: &[Printed] = &[
    (
        b"cilk 1\n\nmem x\nwrite 0 x 7 @5\n",
        &[
            b"cilk 1\n# c\nmem  x\nwrite 0 x 007 @5",
            b"cilk 1\n\nmem x\nwrite 0 x 7 @5\n",
        ],
    ),
    (b"cilk 2\n", &[b"cilk 2\n\n\n", b"cilk 2\n"]),
    (
        b"cilk 2\nreducer g digits\nmem a 4\nreducer h last\nmem b\n\nread 0 a[3] @9\nbump 1 b 2\nget 2 h\nput 3 g 4\nspawn 5\n",
        &[
            b"cilk 2\r\nreducer g digits # c\nmem a 04\n\treducer h last\nmem b\n\nread 00 a[03] @09\nbump 1 b 2\nget 2 h\nput 3 g 4\nspawn 5 #\n\n",
            b"cilk 2\nreducer g digits\nmem a 4\nreducer h last\nmem b\n\nread 0 a[3] @9\nbump 1 b 2\nget 2 h\nput 3 g 4\nspawn 5\n",
        ],
    ),
    (
        b"cilk 2\nmem x\nmem a 4\nreducer h sum\nspawn 0\nread 1 a[3]\nwrite 12 x 18446744073709551615 @4294967295\nbump 4294967295 x 5\nupdate 3 h 7 @2\nput 3 h 8\nget 4 h\ncall 6\nsync 5\nreturn 10\n",
        &[
            b"cilk 2\nmem x\nmem a 4\nreducer h sum\nspawn 0\nread 1 a[3]\nwrite 12 x 18446744073709551615 @4294967295\nbump 4294967295 x 5\nupdate 3 h 7 @2\nput 3 h 8\nget 4 h\ncall 6\nsync 5\nreturn 10\n",
            b"cilk 2\nmem x\nmem a 4\nreducer h sum\nspawn  0\nread 1  a[3]\nwrite 12 x 18446744073709551615  @4294967295\nbump 4294967295 x  5\nupdate 3 h 7 @2 \nput 3  h 8\nget 4 h \n call 6\nsync 5 \nreturn  10\n",
            b"cilk 2\nmem x\nmem a 4\nreducer h sum\nspawn\t0\nread\t1 a[3]\nwrite 12\tx 18446744073709551615 @4294967295\t\nbump 4294967295 x\t5\nupdate 3 h 7\t@2\nput 3 h 8\t\nget 4\th\n\tcall 6\nsync 5\t\nreturn\t10\n",
            b"cilk 2\nmem x\nmem a 4\nreducer h sum\nspawn 0#\nread 1 a[3]#3\nwrite 12 x 18446744073709551615 @4294967295#0\nbump 4294967295 x 5#5\nupdate 3 h 7 @2 # @3\nput 3 h 8 # 8\nget 4 h#h\ncall 6 #\nsync 5 # 5\nreturn 10#0\n",
            b"cilk 2\r\nmem x\r\nmem a 4\r\nreducer h sum\r\nspawn 0\r\nread 1 a[3]\r\nwrite 12 x 18446744073709551615 @4294967295\r\nbump 4294967295 x 5\r\nupdate 3 h 7 @2\r\nput 3 h 8\r\nget 4 h\r\ncall 6\r\nsync 5\r\nreturn 10\r\n",
            b"cilk 2\nmem x\nmem a 4\nreducer h sum\nspawn 00000000000000000000\nread 00000000000000000001 a[00000000000000000003]\nwrite 012 x 0000000000000000000018446744073709551615 @04294967295\nbump 004294967295 x 000000000000000000005\nupdate 03 h 07 @02\nput 3 h 008\nget 04 h\ncall 06\nsync 05\nreturn 010",
        ],
    ),
];

/// Each text means the requests beside it, and is printed as it stands there.
#[test]
fn meanings(rt: HostRuntime) -> Result<(), Fail> {
    for (text, wanted) in ASKED {
        let trace = Trace::parse(rt.alloc(), text)?;
        equal(&rt, text, &are_lines(&trace.lines, wanted), &true);
    }
    for (plain, texts) in PRINTED {
        for text in *texts {
            let printed = Trace::parse(rt.alloc(), text)?.print(rt.alloc())?;
            equal(&rt, text, &printed.as_slice(), plain);
        }
    }
    Ok(())
}

#[test]
fn shapes_and_names(rt: HostRuntime) -> Result<(), Fail> {
    let text = b"cilk 2\nmem x\nmem a 2\nreducer h digits\nreducer g min\n";
    let trace = Trace::parse(rt.alloc(), text)?;
    let shape = trace.shape(rt.alloc())?;
    let monoids = [Monoid::Digits, Monoid::Min];
    assert!(rt; has_cells(rt.alloc(), &shape, trace.mems.as_slice(), &monoids));
    Ok(())
}
