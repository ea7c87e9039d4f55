//! Runs whose schedule a door decides, and the reports that schedules give of one program.

use super::Command::Run;
use super::Wanted::{Among, Text};
use super::{MOST, Takes, Wanted, check, meets, outcome_of};
use std::alloc::Global;
use std::process::Abort;
use std::sync::Wait;
use std::sync::atomic::{AtomicBool, AtomicU64, Ordering};
use std::thread;
use std::thread::Threads;
use tool_commands::{Door, Watched, run_text};

/// A function that spawns another, which writes a cell that it reads.
const PAIR: &str =
    "cilk 1\nmem x\nmem y\nfunc main z\nspawn f 7\nread r x\nend\nfunc f v\nwrite x v\nend\n";

/// What is told of PAIR where the child's write comes first, and the read, which is refused, before the child's sync.
const WRITE_READ: &str =
    "{\"clean\":false,\"entries\":7,\"memory\":{\"x\":7,\"y\":0},\"refusals\":[{\"entry\":3,\"line\":6,\"name\":\"x\",\"rule\":\"write-read\",\"strand\":2,\"witness\":{\"entry\":2,\"line\":9,\"strand\":1}}]}\n";

/// The same where the read comes behind the child's sync.
const WRITE_SYNC_READ: &str =
    "{\"clean\":false,\"entries\":7,\"memory\":{\"x\":7,\"y\":0},\"refusals\":[{\"entry\":4,\"line\":6,\"name\":\"x\",\"rule\":\"write-read\",\"strand\":2,\"witness\":{\"entry\":2,\"line\":9,\"strand\":1}}]}\n";

/// The same where it comes behind the child's return.
const WRITE_RETURN_READ: &str =
    "{\"clean\":false,\"entries\":7,\"memory\":{\"x\":7,\"y\":0},\"refusals\":[{\"entry\":5,\"line\":6,\"name\":\"x\",\"rule\":\"write-read\",\"strand\":2,\"witness\":{\"entry\":2,\"line\":9,\"strand\":1}}]}\n";

/// What is told where the spawner's read comes first, and the write, which is refused, before the spawner's sync.
const READ_WRITE: &str =
    "{\"clean\":false,\"entries\":7,\"memory\":{\"x\":0,\"y\":0},\"refusals\":[{\"entry\":3,\"line\":9,\"name\":\"x\",\"rule\":\"read-write\",\"strand\":1,\"witness\":{\"entry\":2,\"line\":6,\"strand\":2}}]}\n";

/// The same where the write comes behind the spawner's sync.
const READ_SYNC_WRITE: &str =
    "{\"clean\":false,\"entries\":7,\"memory\":{\"x\":0,\"y\":0},\"refusals\":[{\"entry\":4,\"line\":9,\"name\":\"x\",\"rule\":\"read-write\",\"strand\":1,\"witness\":{\"entry\":2,\"line\":6,\"strand\":2}}]}\n";

/// What schedules of PAIR may tell.
const REPORTS: &[&str] = &[
    WRITE_READ,
    WRITE_SYNC_READ,
    WRITE_RETURN_READ,
    READ_WRITE,
    READ_SYNC_WRITE,
];

/// How many workers run PAIR.
const WORKERS: &[usize] = &[1, 2, 8, 64];

/// Each schedule tells one refusal.
#[test]
fn runs_that_no_door_decides(rt: HostRuntime) {
    let wanted = Among(1, REPORTS);
    for workers in WORKERS {
        let command = Run(*workers);
        check(&rt, rt.alloc(), command, PAIR.as_bytes(), wanted);
    }
}

/// A run of PAIR by two workers through a door does what is wanted.
fn check_pair<D: Door + Sync, R: Abort + Threads + Wait + Sync>(
    rt: &R,
    alloc: Global,
    door: &D,
    wanted: Wanted<'_>,
) {
    let mut program = Watched::new(PAIR.as_bytes());
    let mut output = Watched::new(Takes::All.writer(alloc));
    let answer = run_text(rt, alloc, alloc, &mut program, 2, door, &mut output, MOST);
    meets(rt, alloc, &outcome_of(answer, &program, output), wanted);
}

const TURNS: u32 = 1_000_000;

/// Decides which of strands 1 and 2 comes first, and how often before the other. The other one then comes twice before the first goes on.
#[derive(Drop)]
struct Order {
    first: u32,
    second: u32,
    times: u64,
    comings_of_first: AtomicU64,
    comings_of_second: AtomicU64,
}

/// Waits until a strand has come so often.
fn wait_for(comings: &AtomicU64, times: u64) {
    for _ in 0..TURNS {
        if comings.load(Ordering::SeqCst) >= times {
            return;
        }
        thread::yield_now();
    }
}

/// How often a strand has come, with this time.
fn come(comings: &AtomicU64) -> u64 {
    comings.fetch_add(1, Ordering::SeqCst).wrapping_add(1)
}

impl Door for Order {
    fn before<R: Wait>(&self, _rt: &R, strand: u32) {
        if strand == self.first {
            if come(&self.comings_of_first) == self.times {
                wait_for(&self.comings_of_second, 2);
            }
        } else if strand == self.second {
            if come(&self.comings_of_second) == 1 {
                wait_for(&self.comings_of_first, self.times);
            }
        }
    }
}

/// Which strand comes first, which second, how often the first comes before, and the report of PAIR.
const ORDERS: &[(u32, u32, u64, &str)] = &[
    (1, 2, 2, WRITE_READ),
    (1, 2, 3, WRITE_SYNC_READ),
    (2, 1, 2, READ_WRITE),
];

#[test]
fn the_first_access_is_the_witness(rt: HostRuntime) {
    for (first, second, times, wanted) in ORDERS {
        let order = Order {
            first: *first,
            second: *second,
            times: *times,
            comings_of_first: AtomicU64::new(0),
            comings_of_second: AtomicU64::new(0),
        };
        check_pair(&rt, rt.alloc(), &order, Text(1, wanted));
    }
}

/// Holds whichever of strands 1 and 2 comes first until the other has come too.
#[derive(Drop)]
struct Meeting {
    first: AtomicBool,
    second: AtomicBool,
    /// Who came first has gone on alone, so that who comes later meets nobody.
    given_up: AtomicBool,
    met: AtomicBool,
}

impl Meeting {
    fn wait_for(&self, other: &AtomicBool) {
        for _ in 0..TURNS {
            if other.load(Ordering::SeqCst) {
                if !self.given_up.load(Ordering::SeqCst) {
                    self.met.store(true, Ordering::SeqCst);
                }
                return;
            }
            thread::yield_now();
        }
        self.given_up.store(true, Ordering::SeqCst);
    }
}

impl Door for Meeting {
    fn before<R: Wait>(&self, _rt: &R, strand: u32) {
        let (mine, other) = match strand {
            1 => (&self.first, &self.second),
            2 => (&self.second, &self.first),
            _ => return,
        };
        if !mine.swap(true, Ordering::SeqCst) {
            self.wait_for(other);
        }
    }
}

#[test]
fn two_at_once(rt: HostRuntime) {
    let meeting = Meeting {
        first: AtomicBool::new(false),
        second: AtomicBool::new(false),
        given_up: AtomicBool::new(false),
        met: AtomicBool::new(false),
    };
    check_pair(&rt, rt.alloc(), &meeting, Among(1, REPORTS));
    assert!(rt; meeting.met.load(Ordering::SeqCst));
}
