//! `serve_bench rounds WORKERS` runs the rounds of the records on standard input, with this many workers. `serve_bench kept COUNT`
//! keeps this many versions of one served map. Each writes the last line of serve's text to standard output, and to standard error
//! the nanoseconds that it took, without reading its records or making its first map.
//!
//! Tests: its stored run. Wrong bodies: none; it promises nothing but to be safe.
#![tactic(auto)]

mod kept;
mod numbers;
mod rounds;
mod timed;

use anyhow::{Context, Result, bail};
use fork_join::{Cut, FreeGate, On};
use std::alloc::Global;
use std::io::Read;
use std::{env, io};

// How the changes of a map are cut for a number of workers.
fn cut_of(workers: u32) -> Result<Cut> {
    if workers < 1 || 64 < workers {
        bail!("workers are 1 to 64");
    }
    Ok(Cut::new(workers, 1024))
}

/// All of standard input.
fn input(rt: &impl Input, alloc: Global) -> io::Result<Vec<u8>> {
    let mut bytes = Vec::new(alloc);
    rt.reader().read_to_end(&mut bytes)?;
    Ok(bytes)
}

fn main(rt: HostRuntime) -> Result<()> {
    let mut words = env::args(&rt)?.skip(1);
    let name = words.next().context("an operation is wanted")?;
    let number = words.next().context("a number is wanted")?;
    let alone = On {
        rt: &rt,
        gate: &FreeGate,
        cut: cut_of(1)?,
    };
    let timed = match name.as_str() {
        "rounds" => {
            let bytes = input(&rt, rt.alloc())?;
            rounds::time(alone.with(cut_of(number.parse()?)?), rt.alloc(), &bytes)?
        }
        "kept" => kept::time(alone, rt.alloc(), number.parse()?)?,
        _ => bail!("no such operation"),
    };
    println!(rt; "{}", timed.last)?;
    eprintln!(rt; "{}", timed.nanoseconds)?;
    Ok(())
}
