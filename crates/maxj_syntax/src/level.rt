// How tightly operators bind.

/// The levels of operators, the tightest first.
#[derive(Clone, Copy, PartialEq, Eq)]
pub enum Level {
    /// The prefixes `-`, `~` and `!`.
    Prefixes,
    /// `*`, `/` and `%`.
    Products,
    /// `+` and `-`.
    Sums,
    /// `<<` and `>>`.
    Shifts,
    /// `<`, `<=`, `>` and `>=`.
    Orders,
    /// `===`, `!==`, `==` and `!=`.
    Equalities,
    /// `&`.
    BitAnds,
    /// `^`.
    BitXors,
    /// `|`.
    BitOrs,
    /// `&&`.
    Ands,
    /// `||`.
    Ors,
}
