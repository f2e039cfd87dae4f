//! What no clause says: by checked envs the machine does what it does by plain ones, and no refusal is told.

use crate::symbol_table::SymbolTable;
use crate::{Done, Machine, SIZES, SYMBOLS, Symbol, Totals};
use jr::{
    Checked, Env, Fault, NativeCode, QueueEnd, Ran, Refusal, Site, StepsIn, Watcher, run_native,
};
use std::process::Abort;
use std::test::Fail;

/// A watcher that counts refusals.
#[derive(Drop)]
struct Heard {
    refusals: u32,
}

impl Watcher for Heard {
    ghost hears = { λ old new refusal. Unit {0} };

    fn refused(&mut self, _refusal: Refusal) {
        self.refusals = self.refusals.wrapping_add(1);
    }
}

/// The machine, each of whose envs is checked.
#[derive(Drop)]
struct CheckedMachine(Machine);

impl NativeCode for CheckedMachine {
    type Message = Symbol;

    type Answer = Result<Done, Fault>;

    const PLACES: usize = 8;

    fn run<Q: Site, S: StepsIn<Q> + Drop>(
        &self,
        thread: u8,
        env: &mut Env<S>,
        queue: &mut QueueEnd<'_, Symbol, Q>,
    ) -> Result<Done, Fault> {
        let mut checked = Checked::new(env, Heard { refusals: 0 });
        let done = self.0.work(thread, &mut checked, queue);
        let (_env, heard) = checked.into_parts();
        if heard.refusals > 0 {
            return Err(Fault::Turns);
        }
        done
    }
}

/// Checks that the threads read all that was loaded, and left the weak references of the cache alone.
pub(crate) fn has_run(rt: &impl Abort, ran: Ran<Result<Done, Fault>>) -> Result<(), Fail> {
    let mut found = Totals::NONE;
    for answer in ran.answers {
        match answer? {
            Done::Loaded(units) => assert!(rt; units == 72),
            Done::Worked(one) => found = found.with(one),
            Done::Collected(cleared) => assert!(rt; cleared == SYMBOLS),
        }
    }
    assert!(rt; found.entries == 48 && found.units == 72 && found.numbers == 96);
    assert!(rt; found.hash == 2_689_878 && found.first == 300 && found.last == 120);
    assert!(rt; ran.summary.globals == 0 && ran.summary.weaks == 24);
    assert!(rt; ran.summary.live == 0 && ran.summary.used == 0);
    Ok(())
}

/// Each thread does its work, and leaves what the plain machine leaves.
#[test]
fn runs_checked(rt: HostRuntime) -> Result<(), Fail> {
    let alloc = rt.alloc();
    let table = SymbolTable::new(alloc, SYMBOLS)?;
    let machine = CheckedMachine(Machine { alloc, table });
    has_run(&rt, run_native(&rt, alloc, SIZES, &machine)?)
}
