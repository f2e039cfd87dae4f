//! What the threads share beside the room and the queue: a cache of weak references, and that one has left.

use jr::Handle;
use std::alloc::{AllocError, Global};
use std::sync::atomic::{AtomicU64, Ordering};

/// Words that threads share.
#[derive(Drop)]
pub(crate) struct SymbolTable {
    cache: Vec<AtomicU64>,
    left: AtomicU64,
}

impl SymbolTable {
    /// A table with no symbol yet, for so many symbols.
    pub(crate) fn new(alloc: Global, symbols: u32) -> Result<SymbolTable, AllocError> {
        let mut table = SymbolTable {
            cache: Vec::new(alloc),
            left: AtomicU64::new(0),
        };
        for _ in 0..symbols {
            table.cache.push(AtomicU64::new(0))?;
        }
        Ok(table)
    }

    /// Keeps the weak reference to a symbol's numbers.
    pub(crate) fn keep(&self, symbol: u32, weak: Handle) {
        if let Some(place) = self.cache.get(symbol as usize) {
            place.store(weak.0, Ordering::SeqCst);
        }
    }

    /// The weak reference to a symbol's numbers, NULL where none is kept.
    pub(crate) fn kept(&self, symbol: u32) -> Handle {
        match self.cache.get(symbol as usize) {
            Some(place) => Handle(place.load(Ordering::SeqCst)),
            None => Handle::NULL,
        }
    }

    /// A thread leaves.
    pub(crate) fn leave(&self) {
        self.left.fetch_add(1, Ordering::SeqCst);
    }

    /// Whether so many threads have left.
    pub(crate) fn have_left(&self, threads: u64) -> bool {
        self.left.load(Ordering::SeqCst) >= threads
    }
}
