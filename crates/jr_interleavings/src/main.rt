//! Every interleaving of small cases: two and three threads of one room with a few calls each, in each order of their atomic steps, beside a sequential machine that takes each step too.
//!
//! It prints how many orders each case has, the same numbers on every machine. Where something is wrong it prints what, and the order of steps: the thread that went, step by step.
#![tactic(auto)]

mod at_gate;
mod at_objects;
mod at_slots;
mod case;
mod cases;
mod counted;
mod explore;
mod machine;
mod play;
mod run;
mod schedule;
mod scheduled;
mod seen;
mod step;

use crate::cases::CASES;
use crate::explore::{Wrong, explore};
use std::io;
use std::sync::Wait;
use std::thread::Threads;

fn main(rt: HostRuntime) -> io::Result<()> {
    act(&rt)
}

/// Tries each case.
fn act<R: AllocGlobal + Print + Threads + Wait + Sync>(rt: &R) -> io::Result<()> {
    let mut all = 0u64;
    for case in CASES {
        match explore(rt, rt.alloc(), &case) {
            Ok(count) => {
                println!(rt; "{}: {count}", case.name)?;
                all = all.saturating_add(count);
            }
            Err(wrong) => {
                print_wrong(rt, case.name, &wrong)?;
                return Err(io::Error::from(io::ErrorKind::Other));
            }
        }
    }
    println!(rt; "in all: {all}")
}

/// Prints what is wrong, and the order of steps.
fn print_wrong<R: Print>(rt: &R, name: &str, wrong: &Wrong) -> io::Result<()> {
    print!(rt; "{name}: {}, in the order", wrong.what)?;
    for choice in wrong.order.iter() {
        print!(rt; " {}", choice.taken)?;
    }
    println!(rt; "")
}
