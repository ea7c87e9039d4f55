//! Worked programs.

/// The tenth Fibonacci number, summed by a reducer in 713 requests.
pub const FIB: &[u8] =
    b"cilk 1\nmem x\nreducer h sum\nfunc main z\n  put h 0\n  call fib 10\n  get r h\n  write x r\nend\nfunc fib n\n  let t = n < 2\n  if t\n    update h n\n  else\n    let a = n - 1\n    let b = n - 2\n    spawn fib a\n    call fib b\n    sync\n  end\nend\n";

/// The fifth one, in 65 requests.
pub const SMALL_FIB: &[u8] =
    b"cilk 1\nmem x\nreducer h sum\nfunc main z\n  put h 0\n  call fib 5\n  get r h\n  write x r\nend\nfunc fib n\n  let t = n < 2\n  if t\n    update h n\n  else\n    let a = n - 1\n    let b = n - 2\n    spawn fib a\n    call fib b\n    sync\n  end\nend\n";

/// Updates by a child and by its spawner, of which the spawner's is the last, in 11 requests.
pub const LASTS: &[u8] =
    b"cilk 1\nmem x\nreducer h last\nfunc main z\nput h 0\nspawn f 2\nupdate h 3\nsync\nget r h\nwrite x r\nend\nfunc f v\nupdate h v\nend\n";

/// Four numbers, each written by a strand of its own, in 19 requests.
pub const TURNS: &[u8] =
    b"cilk 2\nmem a 4\nfunc main z\n  pfor i 4 f\nend\nfunc f n\n  write a[n] n\nend\n";

/// A function that spawns another, which writes a cell that the spawner reads.
pub const PAIR: &[u8] =
    b"cilk 1\nmem x\nmem y\nfunc main z\n  spawn f 7\n  read r x\nend\nfunc f v\n  write x v\nend\n";

/// One run of it, in which the child writes first.
pub const PAIR_TRACE: &[u8] =
    b"cilk 1\nmem x\nmem y\nspawn 0 @5\nwrite 1 x 7 @9\nread 2 x @6\nsync 1 @10\nreturn 1 @10\nsync 2 @7\nreturn 3 @7\n";

/// A function that calls itself for ever, at line 3.
pub const ENDLESS: &[u8] = b"cilk 1\nfunc main z\ncall main 0\nend\n";
