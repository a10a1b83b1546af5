//! `root_bench OPERATION SIZE [COUNT]`: does one operation of the shared root or of the log. It writes the operation's checksum
//! to standard output, which is the same in every run, and the nanoseconds that it took to standard error.
//!
//! Tests: its stored run. Wrong bodies: none; it promises nothing but to be safe.
#![tactic(auto)]

mod ends;
mod logs;
mod publishes;
mod snapshots;
mod timed;
mod total;

use anyhow::{Context, Result, bail};
use std::env;

fn main(rt: HostRuntime) -> Result<()> {
    let mut words = env::args(&rt)?.skip(1);
    let name = words.next().context("an operation is wanted")?;
    let size = words.next().context("a size is wanted")?;
    let count = words.next();
    let timed = match (name.as_str(), count) {
        ("snapshots", Some(count)) => {
            snapshots::taken(&rt, rt.alloc(), size.parse()?, count.parse()?)?
        }
        ("publishes", Some(count)) => {
            publishes::made(&rt, rt.alloc(), size.parse()?, count.parse()?)?
        }
        ("pushes", None) => logs::pushes(&rt, rt.alloc(), size.parse()?)?,
        ("gets", None) => logs::gets(&rt, rt.alloc(), size.parse()?)?,
        _ => bail!("no such operation"),
    };
    println!(rt; "{}", timed.checksum)?;
    eprintln!(rt; "{}", timed.nanoseconds)?;
    Ok(())
}
