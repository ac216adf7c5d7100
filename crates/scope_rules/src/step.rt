// Steps outwards.

/// One step from a node to the scope in which it stands. Both name a node by its number.
#[derive(Clone, Copy, Debug)]
pub enum Step {
    /// The node stands in the scope that this node opens.
    Within(u32),
    /// The node stands wherever this node stands.
    Beside(u32),
}
