// What a statement defines.

/// What takes the place of another of its name: functions, with `async` before them or not, and classes.
#[derive(Clone, Copy, Debug, PartialEq, Eq)]
pub enum Definition {
    Function,
    Class,
}
