//! By envs under stress, whatever the seeds, the machine does what it does by plain ones.

use crate::symbol_table::SymbolTable;
use crate::tests::has_run;
use crate::{Done, Machine, SIZES, SYMBOLS, Symbol};
use jr::{Env, Fault, NativeCode, QueueEnd, Site, StepsIn, Stress, Stressed, run_native};
use std::test::Fail;

/// How many seeds there are.
const SEEDS: u64 = 20;

/// The machine, each of whose envs is stressed by a seed of its own.
#[derive(Drop)]
struct StressedMachine {
    machine: Machine,
    seed: u64,
}

/// The stress of a thread. A full row is no refusal of it: no patience of the machine waits for that.
fn plan_of(seed: u64, thread: u8) -> Stress {
    Stress {
        row_full: false,
        ..Stress::of(seed.wrapping_mul(64).wrapping_add(u64::from(thread)))
    }
}

impl NativeCode for StressedMachine {
    type Message = Symbol;

    type Answer = Result<Done, Fault>;

    const PLACES: usize = 8;

    fn run<Q: Site, S: StepsIn<Q> + Drop>(
        &self,
        thread: u8,
        env: &mut Env<S>,
        queue: &mut QueueEnd<'_, Symbol, Q>,
    ) -> Result<Done, Fault> {
        let marker = env.marker(self.machine.alloc)?;
        let mut stressed = Stressed::new(env, marker, plan_of(self.seed, thread));
        self.machine.work(thread, &mut stressed, queue)
    }
}

/// Each thread does its work under stress, by 20 seeds, and leaves what the plain machine leaves.
#[test]
fn runs_under_stress(rt: HostRuntime) -> Result<(), Fail> {
    let alloc = rt.alloc();
    for seed in 0..SEEDS {
        let table = SymbolTable::new(alloc, SYMBOLS)?;
        let machine = Machine { alloc, table };
        let stressed = StressedMachine { machine, seed };
        has_run(&rt, run_native(&rt, alloc, SIZES, &stressed)?)?;
    }
    Ok(())
}
