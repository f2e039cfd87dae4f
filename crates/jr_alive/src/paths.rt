//! A shortest path from a root to an object.
use crate::dump::Dump;
use crate::search::{Entry, Origin, Root, reach_all};
use std::alloc::{AllocError, Global};

/// From an object array on to what one of its elements names.
#[derive(Clone, Copy, Debug, PartialEq, Eq)]
pub struct Edge {
    /// The index of the element.
    pub index: u32,
    /// The object that it names, by its number.
    pub object: u16,
}

/// A path from a root to an object.
#[derive(Debug, Drop)]
pub struct Path {
    /// The reference that it begins with.
    pub root: Root,
    /// The object that the root names.
    pub first: u16,
    /// The edges on from there, of which the last leads to the object: none where the root names it.
    pub edges: Vec<Edge>,
}

impl Dump {
    ghost use Rattle.std.specs.Prelude.{IfOk, MatchOption};
    ghost use Rattle.jr_alive.specs.Graph.{IsShortest, IsAlive, IsPath};

    /// A path from a root to an object, by its number, with as few edges as any: why the object is alive. None exactly where no global or local reference leads to it, through any object arrays.
    /// A weak reference keeps nothing alive.
    ///
    /// # Errors
    ///
    /// Where memory was refused.
    ///
    /// # Time
    ///
    /// It grows with how many slots, local places and objects the dump has notes of, and how many elements the object arrays have that are reached.
    pub fn path_to(&self, alloc: Global, object: u16) -> Result<Option<Path>, AllocError>
        ensures { IfOk result (λ path. MatchOption path (¬ (IsAlive self.now 0 object)) (λ p. IsPath self.now 0 p.root p.first p.edges.items object × IsShortest self.now 0 p.edges.items object)) }
    {
        let reached = reach_all(alloc, self, 0)?;
        let mut edges = Vec::new(alloc);
        let mut at = object;
        while let Some(Entry { origin, depth: _ }) = reached.entry(at) {
            match origin {
                Origin::Root(root) => {
                    edges.reverse();
                    return Ok(Some(Path {
                        root,
                        first: at,
                        edges,
                    }));
                }
                Origin::Element { array, index } => {
                    edges.push(Edge { index, object: at })?;
                    at = array;
                }
            }
        }
        Ok(None)
    }
}
