//! Verdicts on texts of the tool gserve.
use crate::worked::LAWFUL_GRAPHS;
use check_tool::{Verdict, check_gserve};
use fork_join::{Cut, FreeGate, On};
use serve_script::{EdgeQuery, GraphOp, served_commands};
use std::alloc::Global;
use std::marker::Sync;
use std::test::Fail;
use std::thread::Threads;

/// Texts that are none of the input `TWO_BATCHES`, and the least point that fails.
const UNLAWFUL: &[(&[u8], u32)] = &[
    // no last line, and a word that no line begins with
    (b"", 0),
    (b"k,1,2\nj,2,3\nfinal,0,0\n", 0),
    // a batch that is missing, and one batch twice
    (b"j,1,2\nfinal,1,1\n", 1),
    (b"j,1,2\nj,2,2\nfinal,1,1\n", 1),
    // the graph of the other order
    (b"j,1,2\nj,2,3\nfinal,1,1\n", 6),
];

/// Two callers, one of which adds the edge that the other one cuts.
const TWO_BATCHES: &[u8] = b"serve,2\nb,0,add,1,2\nb,1,cut,1,2\n";

fn verdict_on<R: Threads + Sync>(
    rt: &R,
    alloc: Global,
    input: &[u8],
    text: &[u8],
) -> Result<Verdict, Fail> {
    let commands = served_commands::<GraphOp, EdgeQuery>(alloc, input)?;
    let on = On {
        rt,
        gate: &FreeGate,
        cut: Cut::new(2, 1),
    };
    Ok(check_gserve(on, alloc, commands.items(), text)?)
}

/// Whether each of some texts is lawful for an input.
fn are_lawful<R: Threads + Sync>(
    rt: &R,
    alloc: Global,
    input: &[u8],
    texts: &[&[u8]],
) -> Result<bool, Fail> {
    for text in texts {
        if verdict_on(rt, alloc, input, text)? != Verdict::Yes {
            return Ok(false);
        }
    }
    Ok(true)
}

#[test]
fn each_lawful_text_of_gserve_is_accepted(rt: HostRuntime) -> Result<(), Fail> {
    for (input, texts) in LAWFUL_GRAPHS {
        assert!(rt; are_lawful(&rt, rt.alloc(), input, texts)?);
    }
    Ok(())
}

#[test]
fn the_least_point_that_fails_is_told(rt: HostRuntime) -> Result<(), Fail> {
    for (text, point) in UNLAWFUL {
        let verdict = verdict_on(&rt, rt.alloc(), TWO_BATCHES, text)?;
        assert_eq!(rt; verdict, Verdict::No { point: *point });
    }
    Ok(())
}
