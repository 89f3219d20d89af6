//! A gate that a worker passes in each round, while it holds an object.

/// A gate, which a worker passes while it holds an object.
pub trait Gate: Sync {
    /// Lets a worker pass. It is called in each round in which the worker borrowed an object, before the worker returns
    /// it. Workers and their rounds are counted from 0.
    fn pass(&self, worker: u32, round: u64);
}
