//! Threads of one script that are held: they wait for each other with many turns.
//! Where memory is refused to one of them, the others wait in vain, so that `.ci/refuse-allocations` leaves these tests out.

use assertions::{Text, assert_same};
use jr_scripts::{Hold, Reply, run_all};
use jr_syntax::parse;
use jr_word::Fault;
use std::alloc::Global;
use std::process::Abort;
use std::sync::Wait;
use std::sync::atomic::{AtomicU64, Ordering};
use std::test::Fail;
use std::thread;
use std::thread::Threads;

/// How often a thread looks for what another does.
const MANY_TURNS: u64 = 10_000_000;

/// What a script of several threads prints.
fn text_of<R: Abort + Threads + Wait, H: Hold + Sync>(
    rt: &R,
    alloc: Global,
    script: &[u8],
    hold: &H,
) -> Result<Vec<u8>, Fail> {
    let script = parse(alloc, script)?;
    let mut out = Vec::new(alloc);
    run_all(rt, alloc, &script, hold, MANY_TURNS, &mut out)?;
    Ok(out)
}

/// A thread hands a global reference to another, which deletes it.
pub(crate) const HANDED_OVER: &[u8] =
    b"vm threads 2 slots 4 objects 8 words 16 locals 16\nthread a\nplain p\nglobal g p\npost g\nwait done\ntype g\nthread b\nwait g\ntype g\nweak w g\ndrop g\ntype g\npost done\n";

const HANDED_OVER_OUTPUT: &[u8] =
    b"[a]\ntype g 0\n[b]\ntype g 2\ntype g 0\n[end]\nglobals 0 weaks 1 live 1 used 0\n";

/// Holds two threads at their first lines until both have come there, and line 7 until line 10 is answered.
#[derive(Drop)]
struct Meeting {
    begun_3: AtomicU64,
    begun_9: AtomicU64,
    answered_10: AtomicU64,
    /// How many waits ran out of turns.
    ran_out: AtomicU64,
    /// How many commands of each thread began.
    begun: [AtomicU64; 2],
    /// How many of them were answered.
    answered: [AtomicU64; 2],
}

impl Meeting {
    fn new() -> Meeting {
        Meeting {
            begun_3: AtomicU64::new(0),
            begun_9: AtomicU64::new(0),
            answered_10: AtomicU64::new(0),
            ran_out: AtomicU64::new(0),
            begun: [AtomicU64::new(0), AtomicU64::new(0)],
            answered: [AtomicU64::new(0), AtomicU64::new(0)],
        }
    }

    /// Waits until a mark is set.
    fn wait_for(&self, mark: &AtomicU64) {
        for _ in 0..MANY_TURNS {
            if mark.load(Ordering::SeqCst) != 0 {
                return;
            }
            thread::yield_now();
        }
        self.ran_out.fetch_add(1, Ordering::SeqCst);
    }
}

/// Counts one more for a thread.
fn count(counts: &[AtomicU64; 2], thread: u8) {
    if thread < 2 {
        counts[thread as usize].fetch_add(1, Ordering::SeqCst);
    }
}

impl Hold for Meeting {
    fn before(&self, thread: u8, line: usize) {
        count(&self.begun, thread);
        if line == 3 {
            self.begun_3.store(1, Ordering::SeqCst);
            self.wait_for(&self.begun_9);
        } else if line == 9 {
            self.begun_9.store(1, Ordering::SeqCst);
            self.wait_for(&self.begun_3);
        } else if line == 7 {
            self.wait_for(&self.answered_10);
        }
    }

    fn after(&self, thread: u8, line: usize, _answer: &Result<Reply, Fault>) {
        count(&self.answered, thread);
        if line == 10 {
            self.answered_10.store(1, Ordering::SeqCst);
        }
    }
}

#[test]
fn threads_of_a_script_run_side_by_side(rt: HostRuntime) -> Result<(), Fail> {
    let hold = Meeting::new();
    let text = text_of(&rt, rt.alloc(), HANDED_OVER, &hold)?;
    assert_same!(&rt; Text(text.as_slice()), Text(HANDED_OVER_OUTPUT));
    assert_same!(&rt; hold.ran_out.load(Ordering::SeqCst), 0);
    assert_same!(&rt; hold.begun[0].load(Ordering::SeqCst), 5);
    assert_same!(&rt; hold.begun[1].load(Ordering::SeqCst), 6);
    assert_same!(&rt; hold.answered[0].load(Ordering::SeqCst), 5);
    assert_same!(&rt; hold.answered[1].load(Ordering::SeqCst), 6);
    Ok(())
}
