//! A tour of the libraries: each page does what its library is for, on a few lines of data, and writes what came of it.
//!
//! Tests: its stored run. Wrong bodies: none; it promises nothing but to be safe.
#![tactic(auto)]

mod accounts;
mod bookings;
mod choice;
mod journey;
mod phone_book;
mod ranking;
mod rope;
mod search;
mod series;

use anyhow::Result;

fn main(rt: HostRuntime) -> Result<()> {
    let alloc = rt.alloc();
    println!(rt; "A phone book\n{}", phone_book::page(alloc)?)?;
    println!(rt; "An account\n{}", accounts::page(alloc)?)?;
    println!(rt; "A time series\n{}", series::page(alloc)?)?;
    println!(rt; "Bookings\n{}", bookings::page(alloc)?)?;
    println!(rt; "Search\n{}", search::page(alloc)?)?;
    println!(rt; "Ranking\n{}", ranking::page(alloc)?)?;
    println!(rt; "A journey\n{}", journey::page(alloc)?)?;
    println!(rt; "An editor\n{}", rope::page(alloc)?)?;
    println!(rt; "A weighted choice\n{}", choice::page(alloc)?)?;
    Ok(())
}
