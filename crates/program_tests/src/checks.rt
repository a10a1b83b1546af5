//! The tool check through the program: verdicts worked by hand, and inputs without a text.
use crate::programs::{Row, check_all};
use pam_top::Status;

const VERDICTS: &[Row] = &[
    // the read may see the batch of its round, or not
    (
        "check",
        b"serve,1\nb,0,put,1,10\nr,0,get,1\nrun\nr,3,0,none\nj,1,2\nfinal,1,10,10\n",
        b"yes\n",
    ),
    (
        "check",
        b"serve,1\nb,0,put,1,10\nr,0,get,1\nrun\nr,3,1,some,10\nj,1,2\nfinal,1,10,10\n",
        b"yes\n",
    ),
    // an answer that is not that of its version, and a version that is not there
    (
        "check",
        b"serve,1\nb,0,put,1,10\nr,0,get,1\nrun\nr,3,1,none\nj,1,2\nfinal,1,10,10\n",
        b"no,6\n",
    ),
    (
        "check",
        b"serve,1\nb,0,put,1,10\nr,0,get,1\nrun\nr,3,2,some,10\nj,1,2\nfinal,1,10,10\n",
        b"no,4\n",
    ),
    // a batch that is left out, and a last line that is not ended
    (
        "check",
        b"serve,1\nb,0,put,1,10\nr,0,get,1\nrun\nr,3,0,none\nfinal,1,10,10\n",
        b"no,1\n",
    ),
    (
        "check",
        b"serve,1\nb,0,put,1,10\nr,0,get,1\nrun\nr,3,0,none\nj,1,2\nfinal,1,10,10",
        b"no,0\n",
    ),
    // batches of one caller in exchanged order
    (
        "check",
        b"serve,1\nb,0,put,1,1\nb,0,put,1,2\nrun\nj,1,3\nj,2,2\nfinal,1,1,1\n",
        b"no,2\n",
    ),
    // a batch before one of an earlier round
    (
        "check",
        b"serve,2\nb,0,put,1,1\nround\nb,1,put,1,2\nrun\nj,1,4\nj,2,2\nfinal,1,1,1\n",
        b"no,3\n",
    ),
    // a caller that sees less than before
    (
        "check",
        b"serve,2\nb,0,put,1,1\nr,1,size\nr,1,size\nrun\nr,3,1,size,1\nr,4,0,size,0\nj,1,2\nfinal,1,1,1\n",
        b"no,5\n",
    ),
    // nothing to do, and a line that only begins with the word
    ("check", b"run\nfinal,0,0,0\n", b"yes\n"),
    ("check", b"serve,1\nrun\nfinal,0,0,0\nrun\n", b"no,0\n"),
];

#[test]
fn verdicts_on_texts_of_serve(rt: HostRuntime) {
    check_all(&rt, rt.alloc(), VERDICTS, Status::Ok);
}

/// Texts of every fault: of the form, and of each point, alone and before others.
const FAULTS: &[Row] = &[
    // lines that are not whole, and line ends with a carriage return
    ("check", b"run\n", b"no,0\n"),
    ("check", b"run\nfinal,0,0,0", b"no,0\n"),
    ("check", b"run\nfinal,0,0,0\n\n", b"no,0\n"),
    ("check", b"run\nfinal\n", b"no,0\n"),
    ("check", b"run\n\nfinal,0,0,0\n", b"no,0\n"),
    (
        "check",
        b"serve,1\nb,0,put,1,10\nr,0,get,1\nrun\nr,3,0,none\r\nj,1,2\r\nfinal,1,10,10\r\n",
        b"no,0\n",
    ),
    // lines out of place
    (
        "check",
        b"serve,1\nb,0,put,1,10\nr,0,get,1\nrun\nj,1,2\nr,3,0,none\nfinal,1,10,10\n",
        b"no,0\n",
    ),
    (
        "check",
        b"serve,1\nb,0,put,1,10\nr,0,get,1\nrun\nr,2,0,none\nj,1,2\nfinal,1,10,10\n",
        b"no,0\n",
    ),
    (
        "check",
        b"serve,1\nb,0,put,1,10\nr,0,get,1\nrun\nr,3,0,none\nj,2,2\nfinal,1,10,10\n",
        b"no,0\n",
    ),
    (
        "check",
        b"serve,1\nb,0,put,1,10\nr,0,get,1\nrun\nj,1,2\nfinal,1,10,10\n",
        b"no,0\n",
    ),
    // numbers that are not lawful, and one beyond 64 bits
    (
        "check",
        b"serve,1\nb,0,put,1,10\nr,0,get,1\nrun\nr,3,00,none\nj,1,2\nfinal,1,10,10\n",
        b"no,0\n",
    ),
    (
        "check",
        b"serve,1\nb,0,put,1,10\nr,0,get,1\nrun\nr,3,+0,none\nj,1,2\nfinal,1,10,10\n",
        b"no,0\n",
    ),
    (
        "check",
        b"serve,1\nb,0,put,1,10\nr,0,get,1\nrun\nr,03,0,none\nj,1,2\nfinal,1,10,10\n",
        b"no,0\n",
    ),
    (
        "check",
        b"serve,1\nb,0,put,1,10\nr,0,get,1\nrun\nr,3,0,none\nj,1,02\nfinal,1,10,10\n",
        b"no,0\n",
    ),
    (
        "check",
        b"serve,1\nb,0,put,1,10\nr,0,get,1\nrun\nr,3,18446744073709551616,none\nj,1,2\nfinal,1,10,10\n",
        b"no,0\n",
    ),
    (
        "check",
        b"serve,1\nb,0,put,1,10\nr,0,get,1\nrun\nr,3,18446744073709551615,none\nj,1,2\nfinal,1,10,10\n",
        b"no,4\n",
    ),
    // a batch named twice, one that is none, and both with a wrong read
    (
        "check",
        b"serve,1\nb,0,put,1,10\nr,0,get,1\nrun\nr,3,0,none\nj,1,2\nj,2,2\nfinal,1,10,10\n",
        b"no,1\n",
    ),
    (
        "check",
        b"serve,1\nb,0,put,1,10\nr,0,get,1\nrun\nr,3,0,none\nj,1,3\nfinal,1,10,10\n",
        b"no,1\n",
    ),
    (
        "check",
        b"serve,1\nb,0,put,1,10\nr,0,get,1\nrun\nr,3,9,none\nj,1,3\nfinal,0,0,0\n",
        b"no,1\n",
    ),
    // points 2 and 6, and 2 alone
    (
        "check",
        b"serve,1\nb,0,put,1,10\nb,0,put,1,20\nrun\nj,1,3\nj,2,2\nfinal,1,20,20\n",
        b"no,2\n",
    ),
    (
        "check",
        b"serve,1\nb,0,put,1,10\nb,0,put,1,20\nrun\nj,1,3\nj,2,2\nfinal,1,10,10\n",
        b"no,2\n",
    ),
    // points 3, 3 and 5, 4 and 5, 5 and 6, 6 alone, and a lawful one
    (
        "check",
        b"serve,2\nb,0,put,1,10\nround\nb,1,put,1,20\nr,0,get,1\nr,0,get,1\nrun\nr,5,1,some,20\nr,6,2,some,10\nj,1,4\nj,2,2\nfinal,1,10,10\n",
        b"no,3\n",
    ),
    (
        "check",
        b"serve,2\nb,0,put,1,10\nround\nb,1,put,1,20\nr,0,get,1\nr,0,get,1\nrun\nr,5,2,some,10\nr,6,1,some,20\nj,1,4\nj,2,2\nfinal,1,10,10\n",
        b"no,3\n",
    ),
    (
        "check",
        b"serve,2\nb,0,put,1,10\nround\nb,1,put,1,20\nr,0,get,1\nr,0,get,1\nrun\nr,5,1,some,10\nr,6,0,none\nj,1,2\nj,2,4\nfinal,1,20,20\n",
        b"no,4\n",
    ),
    (
        "check",
        b"serve,2\nb,0,put,1,10\nround\nb,1,put,1,20\nr,0,get,1\nr,0,get,1\nrun\nr,5,2,some,20\nr,6,1,some,20\nj,1,2\nj,2,4\nfinal,1,20,20\n",
        b"no,5\n",
    ),
    (
        "check",
        b"serve,2\nb,0,put,1,10\nround\nb,1,put,1,20\nr,0,get,1\nr,0,get,1\nrun\nr,5,1,some,10\nr,6,2,some,20\nj,1,2\nj,2,4\nfinal,1,10,10\n",
        b"no,6\n",
    ),
    (
        "check",
        b"serve,2\nb,0,put,1,10\nround\nb,1,put,1,20\nr,0,get,1\nr,0,get,1\nrun\nr,5,1,some,10\nr,6,2,some,20\nj,1,2\nj,2,4\nfinal,1,20,20\n",
        b"yes\n",
    ),
];

#[test]
fn the_least_point_that_fails(rt: HostRuntime) {
    check_all(&rt, rt.alloc(), FAULTS, Status::Ok);
}

const BAD: &[Row] = &[
    ("check", b"", b"error,1,run\n"),
    ("check", b"serve,1\n", b"error,2,run\n"),
    ("check", b"serve,1\nrun", b"error,2,verb\n"),
    (
        "check",
        b"serve,0\nrun\nfinal,0,0,0\n",
        b"error,1,callers\n",
    ),
    (
        "check",
        b"serve,1\nb,0,put,1\nfinal,0,0,0\n",
        b"error,2,fields\n",
    ),
];

#[test]
fn bad_records_and_missing_run_lines(rt: HostRuntime) {
    check_all(&rt, rt.alloc(), BAD, Status::BadRecord);
}
