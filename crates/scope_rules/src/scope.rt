// Scopes, and where a read leads.

/// A scope: the number of the node that opens it. The module's is 0.
#[derive(Clone, Copy, Debug, PartialEq, Eq, PartialOrd, Ord)]
pub struct ScopeId(pub u32);

/// Where a name that is read leads.
#[derive(Clone, Copy, Debug, PartialEq, Eq)]
pub enum Where {
    /// To a name of this scope, which is the read's own, or left through comprehensions alone.
    Local(ScopeId),
    /// To a name of this scope, from a function or class inside it.
    Free(ScopeId),
    /// To a name of the module.
    Global,
    /// To a builtin name.
    Builtin,
    /// To no name.
    Nowhere,
}
