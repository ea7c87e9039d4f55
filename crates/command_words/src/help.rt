//! The texts that tell how the program is used.

/// The program's version, and the logic in which its proofs were checked, by the number that `rt version` gives it: several kits may have
/// one logic.
pub const VERSION: &str = "0.1.0
proved in Rattle's logic dac8208d650f15bf";

pub const ABOUT: &str =
    "Finds determinacy races and view-read races in spawn-sync programs, and in traces of their accesses";

/// What stands behind the program's help.
pub const PROGRAM: &str =
    "`run` and `elide` take a program in a small language of spawn and sync: 'cilkcheck run --help' has the language.
`judge` takes a trace, the requests of a program's strands in some order: 'cilkcheck judge --help' has its lines.
`replay` takes both. `run --trace OUT` writes the trace of a run, so that it can be kept, judged again and replayed.
`explain` takes a program, or one or more traces, and tells a person of the races: both lines, what led there, and what would
order them.
`draw` takes a trace, and draws its strands and their races.

A trace in which a function spawns a child, and both write the cell x:

    printf 'cilk 1\\nmem x\\nspawn 0\\nwrite 1 x 5\\nwrite 2 x 6\\n' | cilkcheck judge

    1 split 1 2 3
    2 granted
    3 refused write-write 2

The spawn by strand 0 begins the child 1 and the continuation 2, and reserves the join 3.
The third request is refused: it races with the write of entry 2.

Exit status:
  0  no access was refused
  1  an access was refused: a race, or a get of a reducer that nothing was put into
  2  invalid arguments, unreadable or malformed input, failed output, a trace's file that can't be written, an illegal
     request, or a program and a trace with different declarations
  3  no memory
  4  the limit was passed; more than 10000 strands are to be drawn; a replay is strange or unfinished; a run is strange,
     torn or stopped

At a fault one line stands on standard error, and nothing on standard output. Of a text it is `program line L: CAUSE` or
`trace line L: CAUSE`, by the first line with a fault, and on it by the first of these causes:
  NotText      a byte that is neither a tab nor printable ASCII
  BadHeader    the first line is neither `cilk 1` nor `cilk 2`
  BadWord      a first word that there is not, a word of another shape than its place wants, too few or too many words
  BadNumber    a number out of the range of its place, as an index past the end of its array
  UnknownName  a name that is not declared as what its place wants, or a register that was not assigned on an earlier line
  TwiceNamed   a second declaration of a name
  BadNesting   an `else` or `end` with nothing to end, a function or `if` without its `end`, a statement outside of
               functions, or a declaration behind the first function or request
  NoMain       a program without a function `main`
  TooMany      more than there may be, as 16 registers in a function, 64 nested `if`s, or 1000000 cells";

pub const JUDGE: &str =
    "Judges the requests of a trace, in a file or on standard input, and writes a verdict line for each";

/// What stands behind the help of `judge`.
pub const TRACE: &str =
    "Input, of FILE or else of standard input: a line `cilk 1` or `cilk 2`, declarations, and a request on each line. `#` begins a
comment. `@K` behind a request names the program's line that makes it, as in traces that 'cilkcheck run FILE --trace OUT' writes.
  mem NAME, mem NAME LENGTH          a cell NAME; an array of cells NAME[0], NAME[1] and so on
  reducer NAME MONOID                MONOID is sum, min, max or last; in `cilk 2` also digits
  spawn S, call S, sync S, return S  S is the number of a strand; the root function begins as strand 0
  read S CELL, write S CELL VALUE    in `cilk 2` also bump S CELL VALUE, which adds
  update S REDUCER VALUE             combines a value into the strand's view
  put S REDUCER VALUE, get S REDUCER

Output, at the end of the input: for each request the number of its entry and what was answered, as `1 split 1 2 3`,
`2 value 0`, `3 granted`, `4 refused write-write 2` where it races with entry 2, `5 refused view-read 1` where the put or
get of entry 1 has other peers, or `6 refused unset` for a get with no put or get before it; or `illegal` and the reason.

Exit status: 0 where nothing was refused, 1 where an access was, 2 for a fault of the input or an illegal request,
3 for want of memory, 4 where the limit was passed.";

pub const ELIDE: &str =
    "Runs a program serially, where each spawn is a call, and writes the memory that it leaves";

/// What stands before the help of `elide`.
pub const ELISION: &str =
    "Runs a program serially, where each spawn is a call, and writes the memory that it leaves.

For example:

    printf 'cilk 1\\nmem x\\nfunc main z\\nspawn f 7\\nsync\\nend\\nfunc f v\\nwrite x v\\nend\\n' > seven
    cilkcheck elide seven

    x 7
    requests 7

Output: for each cell a line with its name and its value, in order, and then the number of requests.

Exit status: 0 at the end of the program, 2 for a fault of the input, 3 for want of memory, 4 where the limit was passed.";

pub const RUN: &str =
    "Runs a program by workers that steal from each other, and writes the report of the run";

/// What stands before the help of `run`.
pub const REPORT: &str =
    "Runs a program by workers that steal from each other, and writes the report of the run.

For example:

    printf 'cilk 1\\nmem x\\nfunc main z\\nspawn f 7\\nsync\\nend\\nfunc f v\\nwrite x v\\nend\\n' > seven
    cilkcheck run seven

    {\"clean\":true,\"entries\":7,\"memory\":{\"x\":7},\"refusals\":[],\"schedules\":\"clean for every schedule\"}

A run by many workers may be another the next time. `--trace OUT` also writes the trace of this one into the file OUT, each
request with its line in the program:

    cilkcheck run seven --trace seven.trace
    cilkcheck replay seven seven.trace
    cilkcheck judge seven.trace

Then `replay` tells `replayed 7`, and `judge` the answer to each of the 7 requests. OUT is made, or emptied where it is there,
once the run is done; before the report is written it has the trace. Where there is no run to be told, it stays as it was.
FILE is no `-` then, so that the trace can be replayed. `--trace -` writes the trace to standard output, in place of the report:

    cilkcheck run seven --trace - | cilkcheck judge

Output: one JSON object in a line, with the keys
  clean      whether nothing was refused
  entries    the number of requests
  memory     what each memory holds: a number, or a list of numbers for an array
  refusals   each access that was refused, in the order of the run: its entry, line, name, strand and rule, and the entry,
             line and strand of its witness. The witness is the earlier access: at a race one of a strand that runs beside,
             at `view-read` the first put or get of the reducer, which has other peers; at `unset` there is none
  schedules  of a clean run alone: that each run of the program is clean and leaves the same memory

Exit status: 0 where nothing was refused, 1 where an access was, 2 for a fault of the input or where OUT can't be written,
3 for want of memory, 4 where the limit was passed, or the run is strange, torn or stopped.";

/// The language of programs, which stands behind the help of `elide` and of `run`.
pub const LANGUAGE: &str =
    "FILE: a line `cilk 1` or `cilk 2`, declarations, and functions. `#` begins a comment.
  mem NAME, mem NAME LENGTH     a cell NAME; an array of cells NAME[0], NAME[1] and so on. Each holds 0 at first
  reducer NAME MONOID           MONOID is sum, min, max or last; in `cilk 2` also digits
  func NAME PARAMETER .. end    a function, whose statements stand between the two lines. The run begins in `main`, with 0

Statements, a line each; r is a register, o a number or a register, x a cell as `c` or `a[o]`, h a reducer, f a function:
  let r = o, let r = o + o      also -, * and <
  read r x, write x o           in `cilk 2` also bump x o, which adds
  update h o                    combines a value into the strand's view
  put h o, get r h              sets the view; gets its value
  spawn f o, call f o           f begins with the argument o; what is spawned may run beside what follows
  sync                          waits for what this function has spawned; each function syncs at its end
  if r .. else .. end           the first part where r is not 0; `else` may be left out
  pfor r o f                    in `cilk 2`: spawns f with each number below o, and syncs
A register begins where it is first assigned. `ok` is one too: 1, and 0 behind an access that was refused.";

pub const REPLAY: &str =
    "Judges the requests of a trace, and tells whether they are a run of a program";

/// What stands behind the help of `replay`.
pub const OUTCOME: &str =
    "The trace declares what the program does, and `@K` names the program's line of a request, as `write 1 x 7 @9`.
'cilkcheck run FILE --trace OUT' writes such a trace of its run.

Output: `replayed N` where the N entries are a finished run, `unfinished` where they are a run that is not finished, or
`strange N` where entry N is the first that is no request of the program's.

Exit status: 0 where nothing was refused, 1 where an access was, 2 for a fault of the input, declarations that differ or an
illegal request, 3 for want of memory, 4 where the entries are no finished run or the limit was passed.";

pub const EXPLAIN: &str = "Explains the races of a run of a program, or of traces, to a person";

/// What stands before the help of `explain`.
pub const EXPLANATION: &str = "Explains the races of a run of a program, or of traces, to a person

For example:

    printf 'cilk 1\\nmem x\\nfunc main z\\nspawn f 1\\nwrite x 2\\nsync\\nend\\nfunc f v\\nwrite x v\\nend\\n' > both
    cilkcheck explain both --workers 1

    race: write-write on x, 1 time
      --> both:9
       |
     5 | write x 2
       | --------- this write, in `main`
       |
     9 | write x v
       | ^^^^^^^^^ this write, in `f`, may run before it or after it
       = spawned at line 4, in `main`: spawn f 1
       |
     4 | spawn f 1
       | --------- here they part: what is spawned comes to line 9, while `main` goes on to line 5
       = help: a `sync` in `main` before line 5 would order them

    1 refusal at 1 pair of lines, among 8 requests

Each pair of lines is told once, of more than 20 pairs the first 20. Pairs that part at one spawn are told together, with
what would order them all, and three of them are shown; `--all` shows every pair. Of a run in which nothing was refused it
says so, and that no schedule has a race, and then the memory, a cell a line. Where the limit ends the run it tells the races until then.
Of a text with faults it shows each faulty line, and what is wanted there; of a trace also its first illegal request.
Before all else it warns of a register with the name of a memory or reducer, of a function that is never reached, of a
reducer that is read and never put, and of an index past its array; the exit status is the same.
A text whose first word behind the declarations is not `func` is a trace. Its places and cells are told as its notes say:
  #at K FILE:LINE, FUNCTION | CODE   what the mark @K stands for
  #of CELL TEXT                      what a cell stands for
  #run TEXT                          what was recorded
Several files are traces, the parts of one recording, which are told together: places that race in several parts are told
once, with the counts of all. `-` is standard input.
`--format json` tells this to a program, as one JSON object in a line, whose `outcome` is clean, raced, unfinished, faulty
or illegal; `--format sarif` tells it as a log in SARIF 2.1.0, for code scanning and editors. On a terminal there are no colors where NO_COLOR is not empty, or TERM is dumb.

Exit status: 0 where nothing was refused, 1 where an access was, 2 for a fault of the input, 3 for want of memory, 4 where
the limit was passed and nothing was refused until then.";

pub const DRAW: &str =
    "Judges the requests of a trace, and draws the dag of its strands with their races, for Graphviz or as SVG";

/// What stands before the help of `draw`.
pub const DRAWING: &str =
    "Judges the requests of a trace, and draws the dag of its strands with their races, for Graphviz or as SVG.

For example, with a trace in which a function spawns a child, and both write the cell x:

    printf 'cilk 1\\nmem x\\nspawn 0\\nwrite 1 x 5\\nwrite 2 x 6\\n' > both.trace
    cilkcheck draw both.trace

    digraph trace {
      0 [label=\"0\\l\"];
      1 [label=\"1\\l2 write x\\l\"];
      2 [label=\"2\\l3 write x refused\\l\"];
      0 -> 1 [label=\"child\"];
      0 -> 2 [label=\"next\"];
      1 -> 2 [label=\"write-write on x\", color=red, fontcolor=red, constraint=false];
    }

With --svg it writes the picture itself, which a browser shows:

    cilkcheck draw both.trace --svg > dag.svg

Output, in Graphviz's language:
  a node for each strand that has begun: its number, and then its accesses, each with the number of its entry, 12 at
  most, and how many more there are
  a black edge for each edge of the dag: `child` and `next` from a strand that spawns, `join` to the strand behind a sync
  a red edge for each race, from the strand of the earlier access to that of the refused one, with its rule and name
Of a race on a cell no path of black edges leads from one strand to the other, so the two may run at the same time.
What the notes of the trace say is told in place of numbers and names: the line and the function of an access, what a
cell stands for, and above the graph what was recorded.
With --svg the nodes are boxes, each below those that lead to it, and the races are red arcs.";

/// What stands behind the help of `draw`.
pub const STRANDS: &str =
    "'cilkcheck judge --help' has the lines of a trace. At most 10000 strands are drawn.

Exit status: 0 where nothing was refused, 1 where an access was, 2 for a fault of the input or an illegal request,
3 for want of memory, 4 where the limit was passed or there are more strands.";
