//! Words of any value as references: each call that takes one is made with each of them, in a room where nothing was made, in one that is full of every kind of object,
//! and once all references in it are deleted. Each answer is the one that the word alone, and what was made, let one expect.

mod calls;
mod known;
mod rooms;
