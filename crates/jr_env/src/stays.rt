//! The calls of a stay: those of an env that enter the gate, without an entry and an exit of their own.

mod copies;
mod explaining;
mod levels;
mod numbers;
