//! The loads that `bench/run` times. The words name one, its size and how often it is done, or `all` of them at a small size.
#![tactic(auto)]

use load::{Load, Size, Work, work_in};
use schedule::completed;
use simplex::best_rate;
use slots::slot_count;
use std::process::ExitCode;
use std::{env, io};

mod load;
mod programme;
mod schedule;
mod simplex;
mod slots;

/// Prints the best rate of a chain of workers, in tasks per tick.
fn print_rate<R: Print + AllocGlobal>(rt: &R, size: Size) -> io::Result<()> {
    match best_rate(rt.alloc(), size) {
        Some(rate) => println!(rt; "rate {}/{}", rate.num(), rate.den()),
        None => println!(rt; "no rate"),
    }
}

/// Prints into how many slots the period of a chain of nodes is cut.
fn print_slot_count<R: Print + AllocGlobal>(rt: &R, size: Size) -> io::Result<()> {
    match slot_count(rt.alloc(), size) {
        Some(count) => println!(rt; "slots {count}"),
        None => println!(rt; "no slots"),
    }
}

/// Prints how many tasks a long schedule completes.
fn print_completed<R: Print + AllocGlobal>(rt: &R, size: Size) -> io::Result<()> {
    match completed(rt.alloc(), size) {
        Some(count) => println!(rt; "completed {count}"),
        None => println!(rt; "no verdict"),
    }
}

/// Does one load.
fn print_load<R: Print + AllocGlobal>(rt: &R, load: Load, size: Size) -> io::Result<()> {
    match load {
        Load::Simplex => print_rate(rt, size),
        Load::Slots => print_slot_count(rt, size),
        Load::Schedule => print_completed(rt, size),
    }
}

/// Does each load at a small size.
fn print_all<R: Print + AllocGlobal>(rt: &R) -> io::Result<()> {
    print_rate(rt, Size { parts: 4, times: 2 })?;
    print_slot_count(rt, Size { parts: 3, times: 2 })?;
    print_completed(
        rt,
        Size {
            parts: 1000,
            times: 1,
        },
    )
}

/// Says which words there are.
fn print_usage<R: Eprint + AllocGlobal>(rt: &R) -> io::Result<ExitCode> {
    eprintln!(rt; "usage: bench_loads all | (simplex | slots | schedule) SIZE [TIMES]")?;
    Ok(ExitCode::from(2))
}

/// Does what the words ask for, or says which words there are.
fn print_work<R: Print + Eprint + AllocGlobal>(rt: &R, words: &[String]) -> io::Result<ExitCode> {
    match work_in(words) {
        Some(Work::All) => print_all(rt)?,
        Some(Work::One(load, size)) => print_load(rt, load, size)?,
        None => return print_usage(rt),
    }
    Ok(ExitCode::SUCCESS)
}

fn main(rt: HostRuntime) -> io::Result<ExitCode> {
    let words: Vec<String> = env::args(&rt)?.skip(1).collect(rt.alloc())?;
    print_work(&rt, words.as_slice())
}
