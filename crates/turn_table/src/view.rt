//! What a pass knows. No value of these types is made: they are for the proofs alone.
use std::collections::LinkedList;

/// Where a pass stands between two steps.
pub enum Turn<C> {
    Idle,
    /// It drew this number, counted without end.
    Waiting(u64),
    /// Its number is served.
    Ready,
    /// It holds the object, which stands for this history.
    Holding(LinkedList<(u64, C)>),
}

/// What a pass knows. A note has no name, nor has a view that is spent.
pub struct View<C, S> {
    pub named: bool,
    pub owner: u64,
    /// The setting of its table's object; a spent view has none.
    pub setting: Option<S>,
    pub seen: LinkedList<(u64, C)>,
    /// The list that it had itself before it took over another.
    pub was: LinkedList<(u64, C)>,
    /// The list that it took over, or was lent.
    pub heard: LinkedList<(u64, C)>,
    pub made: u64,
    pub kept: LinkedList<(u64, LinkedList<(u64, C)>)>,
    pub noted: u64,
    pub turn: Turn<C>,
}
