// What a variable's right side is.

/// The right side of one variable. The number of another variable is taken modulo the number of variables, and the value
/// of a number is the module of the file with that number.
#[derive(Clone, Copy, Debug)]
pub enum Rule {
    /// No value.
    Nothing,
    /// Uninferable.
    Unknown,
    /// One value.
    Value(u32),
    /// The set of a variable.
    Copy(u64),
    /// The set of a variable, and one value more.
    More(u64, u32),
    /// The sets of two variables together.
    Both(u64, u64),
    /// The set of the second variable where that of the first is not empty, and else no value.
    When(u64, u64),
    /// The sets of several variables together: the first of them, and how many, one after another.
    Row(u64, u32),
}
