//! The program over sources and sinks in memory.
ghost use Rattle.std.specs.Prelude.{◌≡◌, ◌≤◌};

use aug_monoid::Totals;
use fork_join::FreeGate;
use io_edge::{MemSink, MemSource};
use pam_top::plain_map::SortedMap;
use pam_top::{Status, pam};
use std::alloc::Global;
use std::marker::Sync;
use std::process::Abort;
use std::sync::Wait;
use std::thread::Threads;

/// A tool, its input, and the text that it must give.
pub(crate) type Row = (&'static str, &'static [u8], &'static [u8]);

const EXAMPLE: &[u8] = b"put,0,5,10\nget,0,5\nsum,0,0,9\n";

const REPLIES: &[u8] = b"ok,1\nsome,10\naug,10,10\n";

/// How a source and a sink give and take: the bytes of a piece, and the calls that fail.
#[derive(Clone, Copy)]
pub(crate) struct Edge<'a> {
    pub(crate) piece: usize,
    pub(crate) reads: &'a [u64],
    pub(crate) writes: &'a [u64],
}

/// Pieces of so many bytes, and no call that fails.
fn sound_edge<'a>(piece: usize) -> Edge<'a>
    ensures { result.piece ≡ piece }
{
    Edge {
        piece,
        reads: &[],
        writes: &[],
    }
}

pub(crate) fn words_of<R: Abort>(rt: &R, alloc: Global, words: &[&str]) -> Vec<String> {
    let mut list = Vec::new(alloc);
    for word in words {
        let word = String::from_str(alloc, word).expect(rt, "memory");
        list.push(word).expect(rt, "memory");
    }
    list
}

fn source_of<R: Abort>(rt: &R, alloc: Global, input: &[u8], edge: &Edge) -> MemSource
    requires { 1 ≤ edge.now.piece }
{
    let bytes = Vec::from_slice(alloc, input).expect(rt, "memory");
    let fails = Vec::from_slice(alloc, edge.reads).expect(rt, "memory");
    MemSource::new(bytes, edge.piece, fails)
}

fn sink_of<R: Abort>(rt: &R, alloc: Global, edge: &Edge) -> MemSink
    requires { 1 ≤ edge.now.piece }
{
    let fails = Vec::from_slice(alloc, edge.writes).expect(rt, "memory");
    MemSink::new(alloc, 1000, edge.piece, fails).expect(rt, "memory")
}

/// Runs the program, and answers its status and what it wrote. Where memory for the run is refused, the test ends here.
pub(crate) fn run(
    rt: &(impl Abort + Threads + Wait + Sync),
    alloc: Global,
    words: &[&str],
    input: &[u8],
    edge: &Edge,
) -> (Status, Vec<u8>)
    requires { 1 ≤ edge.now.piece }
{
    let list = words_of(rt, alloc, words);
    let mut source = source_of(rt, alloc, input, edge);
    let mut sink = sink_of(rt, alloc, edge);
    let status = pam(rt, alloc, &list, &mut source, &mut sink, &FreeGate);
    let text = Vec::from_slice(alloc, sink.written()).expect(rt, "memory");
    (status, text)
}

/// Asserts what a run ends with and writes.
fn assert_run(
    rt: &(impl Abort + Threads + Wait + Sync),
    alloc: Global,
    words: &[&str],
    input: &[u8],
    edge: &Edge,
    status: Status,
    wanted: &[u8],
)
    requires { 1 ≤ edge.now.piece }
{
    let (end, text) = run(rt, alloc, words, input, edge);
    assert_eq!(rt; end, status);
    assert_eq!(rt; text.as_slice(), wanted);
}

/// Runs a row in pieces of so many bytes on so many workers.
fn check(
    rt: &(impl Abort + Threads + Wait + Sync),
    alloc: Global,
    row: Row,
    status: Status,
    piece: usize,
    workers: &'static str,
)
    requires { 1 ≤ piece }
{
    let (tool, input, wanted) = row;
    let words = ["--workers", workers, "--grain", "1", tool];
    assert_run(rt, alloc, &words, input, &sound_edge(piece), status, wanted);
}

/// Runs each row in pieces of 1 byte on one worker, and in pieces of 7 bytes on many.
pub(crate) fn check_all(
    rt: &(impl Abort + Threads + Wait + Sync),
    alloc: Global,
    rows: &[Row],
    status: Status,
) {
    for row in rows {
        check(rt, alloc, *row, status, 1, "1");
        check(rt, alloc, *row, status, 7, "64");
    }
}

/// Inputs of the tool map, and what is replied to them.
const INPUTS: &[Row] = &[
    // nothing, and lines without a record
    ("map", b"", b""),
    ("map", b"\n\r\n\n", b""),
    ("map", EXAMPLE, REPLIES),
    // a value put anew
    (
        "map",
        b"put,0,5,10\nput,0,5,11\nget,0,5\nget,0,6\n",
        b"ok,1\nok,1\nsome,11\nnone\n",
    ),
    // a sum that saturates, of the least and the greatest key
    (
        "map",
        b"put,3,0,18446744073709551615\nput,3,18446744073709551615,18446744073709551615\nsum,3,0,18446744073709551615\n",
        b"ok,1\nok,2\naug,18446744073709551615,18446744073709551615\n",
    ),
    // a range that ends before it begins
    ("map", b"put,0,5,10\nsum,0,9,3\n", b"ok,1\naug,0,0\n"),
    // both ends of a range count, and keys are in order
    (
        "map",
        b"put,0,9,1\nput,0,3,30\nput,0,5,7\nsum,0,3,5\nsum,0,4,9\n",
        b"ok,1\nok,2\nok,3\naug,37,30\naug,8,7\n",
    ),
    // a quoted field, carriage returns, records of different lengths, no line end at the end
    (
        "map",
        b"\"put\",0,5,10\r\n\r\nget,0,\"5\"\r\nsum,0,0,9",
        REPLIES,
    ),
    // a byte order mark, and registers apart from one another
    (
        "map",
        b"\xEF\xBB\xBFput,15,1,2\nget,0,1\nget,15,1\n",
        b"ok,1\nnone\nsome,2\n",
    ),
];

#[test]
fn replies_to_an_input(rt: HostRuntime) {
    check_all(&rt, rt.alloc(), INPUTS, Status::Ok);
}

/// Inputs that have each verb of the tool map, and what is replied to them.
const VERBS: &[Row] = &[
    // puts and removals
    (
        "map",
        b"put,0,5,10\nput,0,5,11\nget,0,5\ndel,0,5\ndel,0,5\nget,0,5\n",
        b"ok,1\nok,1\nsome,11\nok,0\nok,0\nnone\n",
    ),
    // unions, an intersection, differences, and maps that overlap
    (
        "map",
        b"build,0,1,10,3,30,5,50\nbuild,1,3,4,4,40\nunion,2,0,1,sum\nfold,2\nunion,3,0,1,first\nget,3,3\ninter,3,0,1,second\nget,3,3\ndiff,4,0,1\nlist,4,0,9\ncat,5,4,1\nsize,5\ndiff,5,0,0\n",
        b"ok,3\nok,2\nok,4\naug,134,50\nok,4\nsome,30\nok,1\nsome,4\nok,2\nlist,2,1,10,5,50\noverlap\nsize,0\nok,0\n",
    ),
    // parts by keys and by values, places and neighbours
    (
        "map",
        b"build,2,1,10,3,34,4,40,5,50\nbelow,6,2,4\nabove,8,2,4\ncat,9,6,8\nrank,2,4\nselect,2,3\nselect,2,4\nnext,2,3\nprev,2,1\natleast,10,2,40\nfilter,11,2,30,40\ncount,2,30,40\nmax,2,2,4\n",
        b"ok,4\nok,2\nok,1\nok,3\nrank,2\nentry,5,50\nnone\nentry,4,40\nnone\nok,2\nok,2\ncount,2\nmax,40\n",
    ),
    // batches, a copy that stays, and a slice
    (
        "map",
        b"build,0,1,10,3,30,5,50\ncopy,13,0\nmput,0,7,70,7,71\nget,0,7\nmdel,0,1,2\nslice,12,0,4,9\nclear,0\nsize,13\nsize,12\n",
        b"ok,3\nok,3\nok,4\nsome,71\nok,3\nok,2\nok,0\nsize,3\nsize,2\n",
    ),
    // registers apart from one another
    (
        "map",
        b"put,0,5,10\nput,15,6,7\ncopy,1,15\ndel,1,6\nfold,0\nlist,15,0,9\nsize,1\nclear,0\nget,0,5\n",
        b"ok,1\nok,1\nok,1\nok,0\naug,10,10\nlist,1,6,7\nsize,0\nok,0\nnone\n",
    ),
    // a map behind another one
    (
        "map",
        b"put,0,1,10\nput,1,2,20\ncat,2,0,1\ncat,3,1,0\ncat,4,0,9\nsize,2\n",
        b"ok,1\nok,1\nok,2\noverlap\nok,1\nsize,2\n",
    ),
    // registers that are read and written by one command
    (
        "map",
        b"build,0,1,10,2,20\nbuild,1,2,5,3,6\nunion,0,0,1,max\nfold,0\ninter,1,0,1,sum\nlist,1,0,9\ndiff,0,0,1\ncat,0,0,0\ncat,0,0,1\ncopy,0,0\nlist,0,0,9\nmdel,0,1,3\nabove,0,0,2\n",
        b"ok,2\nok,2\nok,3\naug,36,20\nok,2\nlist,2,2,25,3,12\nok,1\noverlap\nok,3\nok,3\nlist,3,1,10,2,25,3,12\nok,1\nok,0\n",
    ),
];

#[test]
fn replies_to_each_verb(rt: HostRuntime) {
    check_all(&rt, rt.alloc(), VERBS, Status::Ok);
}

/// Inputs of the other tools, and what is replied to them.
const TOOLS: &[Row] = &[
    // an appended copy, a sequence turned round, parts of it, and an item that is set where there is one
    (
        "seq",
        b"push,0,1,2,3\nappend,1,0,0\nreverse,2,1\ntake,3,2,2\nskip,4,2,5\nlist,2,0,9\nat,3,1\nat,4,1\nfold,1,1,3\nset,0,3,9\nsize,0\n",
        b"ok,3\nok,6\nok,6\nok,2\nok,1\nlist,6,3,2,1,3,2,1\nsome,2\nnone\naug,6,3\nnone\nsize,3\n",
    ),
    // registers that are read and written by one command, a sum that saturates, and places past the end
    (
        "seq",
        b"push,0,7,18446744073709551615\npush,0,9\nreverse,0,0\nappend,0,0,0\nset,0,5,1\nlist,0,2,3\nfold,0,0,18446744073709551615\ntake,0,0,2\nskip,0,0,1\nlist,0,0,1\nlist,0,18446744073709551615,18446744073709551615\nfold,0,1,1\nskip,0,0,9\ntake,0,0,9\nat,15,0\n",
        b"ok,2\nok,3\nok,3\nok,6\nok,6\nlist,3,7,9,18446744073709551615\naug,18446744073709551615,18446744073709551615\nok,2\nok,1\nlist,1,18446744073709551615\nlist,0\naug,0,0\nok,0\nok,0\nnone\n",
    ),
    // a sequence that is appended to itself up to the most items, and no further
    (
        "seq",
        b"push,0,1\nappend,0,0,0\nappend,0,0,0\nappend,0,0,0\nappend,0,0,0\nappend,0,0,0\nappend,0,0,0\nappend,0,0,0\nappend,0,0,0\nappend,0,0,0\nappend,0,0,0\nappend,0,0,0\nappend,0,0,0\nappend,0,0,0\nappend,0,0,0\nappend,0,0,0\nappend,0,0,0\nappend,0,0,0\nappend,0,0,0\nappend,0,0,0\nappend,0,0,0\nappend,0,0,0\nappend,0,0,0\nappend,0,0,0\nappend,0,0,0\nappend,0,0,0\nfold,0,0,16777216\n",
        b"ok,1\nok,2\nok,4\nok,8\nok,16\nok,32\nok,64\nok,128\nok,256\nok,512\nok,1024\nok,2048\nok,4096\nok,8192\nok,16384\nok,32768\nok,65536\nok,131072\nok,262144\nok,524288\nok,1048576\nok,2097152\nok,4194304\nok,8388608\nok,16777216\nlong\naug,16777216,1\n",
    ),
    // both ends of an interval are in it, and intervals may share an end
    (
        "interval",
        b"any,0\nadd,1,3\nadd,3,3\nadd,5,9\nany,3\nany,4\nstab,3\nover,4,5\ndel,1,3\nstab,2\nsize\n",
        b"no\nok,1\nok,2\nok,3\nyes\nno\nhits,2,1,3,3,3\nhits,1,5,9\nok,2\nhits,0\nsize,2\n",
    ),
    // a rectangle with points, and one that has none
    (
        "points",
        b"add,1,1,5,1,2,7\nadd,2,1,9\nsum,1,1,1,2\nsum,3,4,0,9\nlist,1,2,1,1\ndel,1,1\nsize\n",
        b"ok\nok\nsum,12,2\nsum,0,0\npoints,2,1,1,5,2,1,9\nok\nsize,2\n",
    ),
    // a later weight replaces an earlier one, and a sum saturates
    (
        "points",
        b"add,1,1,5,1,1,6\nadd,1,1,7,3,1,18446744073709551615\nlist,0,2,0,18446744073709551615\nsum,0,3,1,1\nadd,1,1,8\nsum,1,1,1,1\n",
        b"ok\nok\npoints,1,1,1,7\nsum,18446744073709551615,2\nok\nsum,8,1\n",
    ),
    // capital letters become small, a document is added once, and a text may have no terms
    (
        "index",
        b"doc,0,\"to be, or not to be\"\ndoc,1,Not yet\nand,not\nand,to,be\nor,to,yet\nwithout,not,yet\ntop,1,to\ntop,0,to\ndoc,1,again\ndoc,2,\"\"\n",
        b"ok,4\nok,2\ndocs,2,0,1,1,1\ndocs,1,0,4\ndocs,2,0,2,1,1\ndocs,1,0,1\ndocs,1,0,2\ndocs,0\nknown\nok,0\n",
    ),
    // a kept graph stays as it was, and a graph that was not kept has no search
    (
        "graph",
        b"add,1,2,2,3,1,3\nkeep\ncut,1,3\nbfs,0,1\nnow,1\nnow,7\nbfs,1,1\ndegree,1\nsize\n",
        b"ok,3\nkept,0\nok,2\nbfs,3,1,0,2,1,3,1\nbfs,3,1,0,2,1,3,2\nbfs,1,7,0\nnone\ndegree,1\ngraph,2,2\n",
    ),
    // loops, an edge that is named twice, and edges that are absent
    (
        "graph",
        b"size\ncut,4,4\nadd,5,5,5,6,5,5,6,5\nnow,5\ncut,6,5,6,6,9,1\nsize\ndegree,6\nnow,6\n",
        b"graph,0,0\nok,0\nok,3\nbfs,2,5,0,6,1\nok,2\ngraph,1,2\ndegree,0\nbfs,1,6,0\n",
    ),
    // components, whichever way their edges go
    (
        "graph",
        b"comp\nadd,1,2,3,2,5,5,7,6\ncomp\n",
        b"comp,0\nok,4\ncomp,6,1,1,2,1,3,1,5,5,6,6,7,6\n",
    ),
];

#[test]
fn replies_of_the_other_tools(rt: HostRuntime) {
    check_all(&rt, rt.alloc(), TOOLS, Status::Ok);
}

const SAMPLE_OF_1: &[u8] =
    b"ok,1\nok,1\nok,1\nok,1\nok,0\naug,527343,527343\naug,420705,420705\naug,0,0\n";

#[test]
fn the_sample_reads_nothing(rt: HostRuntime) {
    let edge = Edge {
        piece: 7,
        reads: &[1],
        writes: &[],
    };
    let words = ["--seed", "0", "--size", "1", "sample"];
    assert_run(
        &rt,
        rt.alloc(),
        &words,
        EXAMPLE,
        &edge,
        Status::Ok,
        SAMPLE_OF_1,
    );
}

/// Inputs with a bad record, and the line that names the first one.
const FAULTS: &[Row] = &[
    ("map", b"put,0,5,10\nfrob\nput,16,1,1\n", b"error,2,verb\n"),
    ("map", b"put,16,1,1\n", b"error,1,register\n"),
    ("map", b"cat,0,1,16\n", b"error,1,register\n"),
    ("map", b"union,0,1,2,least\n", b"error,1,how\n"),
    ("map", b"Put,0,5,10\n", b"error,1,verb\n"),
    ("map", b"put,0,1\n", b"error,1,fields\n"),
    ("map", b"put,16,05,1,1\n", b"error,1,fields\n"),
    ("map", b"put,16,05,1\n", b"error,1,register\n"),
    ("map", b"\n\nget,00,1\n", b"error,1,register\n"),
    ("map", b"put,0,05,1\n", b"error,1,number\n"),
    (
        "map",
        b"put,0,1,18446744073709551616\n",
        b"error,1,number\n",
    ),
    ("map", b"sum,0,,9\n", b"error,1,number\n"),
    ("map", b"put,0,,1\n", b"error,1,number\n"),
    ("map", b"put,16,x,1\n", b"error,1,register\n"),
    ("map", b"put,0,x,1,2\n", b"error,1,fields\n"),
    ("map", b"build,0,1\n", b"error,1,fields\n"),
    ("map", b"mput,0\n", b"error,1,fields\n"),
    ("seq", b"size,0\nat,16,x\n", b"error,2,register\n"),
    ("seq", b"push,0,1,x\n", b"error,1,number\n"),
    ("interval", b"size\nadd,4,2\n", b"error,2,interval\n"),
    ("interval", b"over,5,4\n", b"error,1,interval\n"),
    ("interval", b"add,4,x\n", b"error,1,number\n"),
    ("points", b"add,1,2\n", b"error,1,fields\n"),
    ("points", b"put,0,1,2\n", b"error,1,verb\n"),
    ("index", b"and,a-b\n", b"error,1,term\n"),
    ("index", b"top,x,to\n", b"error,1,number\n"),
    ("graph", b"keep\nadd,1\n", b"error,2,fields\n"),
];

#[test]
fn the_line_of_the_first_bad_record(rt: HostRuntime) {
    check_all(&rt, rt.alloc(), FAULTS, Status::BadRecord);
}

const LAWFUL: &[&[&str]] = &[
    &["map"],
    &["--workers=8", "map", "--grain", "1"],
    &["--seed", "0", "--size", "1000000", "map"],
    &["--workers", "64", "--", "map"],
];

const UNLAWFUL: &[&[&str]] = &[
    &[],
    &["frob"],
    &["Interval"],
    &["map", "map"],
    &["--workers", "0", "map"],
    &["--workers", "65", "map"],
    &["--workers", "08", "map"],
    &["--work", "8", "map"],
    &["--seed=2", "--seed=2", "map"],
    &["--help"],
];

/// Runs the example at each list of words.
fn check_words(
    rt: &(impl Abort + Threads + Wait + Sync),
    alloc: Global,
    lists: &[&[&str]],
    status: Status,
    wanted: &[u8],
) {
    for words in lists {
        assert_run(rt, alloc, words, EXAMPLE, &sound_edge(7), status, wanted);
    }
}

#[test]
fn lawful_words(rt: HostRuntime) {
    check_words(&rt, rt.alloc(), LAWFUL, Status::Ok, REPLIES);
}

#[test]
fn words_that_are_not_lawful(rt: HostRuntime) {
    check_words(&rt, rt.alloc(), UNLAWFUL, Status::Usage, b"");
}

/// Runs the example in pieces of so many bytes, where these calls fail.
fn check_failing(
    rt: &(impl Abort + Threads + Wait + Sync),
    alloc: Global,
    piece: usize,
    reads: &[u64],
    writes: &[u64],
    status: Status,
    wanted: &[u8],
)
    requires { 1 ≤ piece }
{
    let edge = Edge {
        piece,
        reads,
        writes,
    };
    assert_run(rt, alloc, &["map"], EXAMPLE, &edge, status, wanted);
}

#[test]
fn each_read_that_may_fail(rt: HostRuntime) {
    // 29 bytes by 8 are four reads, and the fifth finds the end
    for call in 1..6u64 {
        check_failing(&rt, rt.alloc(), 8, &[call], &[], Status::ReadFault, b"");
    }
    check_failing(&rt, rt.alloc(), 8, &[6], &[], Status::Ok, REPLIES);
}

// 23 bytes by 8 are three writes
const WRITES: &[(u64, Status, &[u8])] = &[
    (1, Status::WriteFault, b""),
    (2, Status::WriteFault, b"ok,1\nsom"),
    (3, Status::WriteFault, b"ok,1\nsome,10\naug"),
    (4, Status::Ok, REPLIES),
];

#[test]
fn each_write_that_may_fail(rt: HostRuntime) {
    for (call, status, taken) in WRITES {
        check_failing(&rt, rt.alloc(), 8, &[], &[*call], *status, taken);
    }
    check_failing(&rt, rt.alloc(), 1, &[], &[3], Status::WriteFault, b"ok");
}

#[test]
fn the_plain_map(rt: HostRuntime) {
    let mut map = SortedMap::empty(rt.alloc());
    map.put(5, 10).expect(&rt, "memory");
    map.put(3, 30).expect(&rt, "memory");
    map.put(5, 11).expect(&rt, "memory");
    assert!(rt; map.size() == 2 && map.get(5) == Some(11) && map.get(4).is_none());
    let totals = Totals {
        sum: 41,
        greatest: 30,
    };
    assert_eq!(rt; map.aug_range(3, 5), totals);
}

#[test]
fn a_fault_of_a_write_has_the_code_6(rt: HostRuntime) {
    assert_eq!(rt; Status::WriteFault.code(), 6);
}
