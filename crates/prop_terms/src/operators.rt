//! The operators of expressions, and how tightly each binds.
ghost use Rattle.std.specs.Prelude.{◌≡◌};
ghost use Rattle.prop_terms.specs.Levels.{Side, strength_of, level_of, side_at, left_at, right_at};

/// What stands before one term: a sign, a word or a function.
#[derive(Clone, Copy, PartialEq, Eq)]
pub enum Prefix {
    /// `- x`.
    Negated,
    /// `not T`.
    Not,
    /// `if T then A else B`, before `T then (A else B)`.
    If,
    /// `abs(x)`.
    Abs,
    /// `max(x, ..)`.
    Max,
    /// `min(x, ..)`.
    Min,
    /// `sum(x, ..)`.
    Sum,
    /// `count(T, ..)`: how many of these are true.
    Count,
    /// `different(x, ..)`: no two of these are the same.
    Different,
    /// `element(x; mon: 30, tue: 10)`: what stands behind the value of `x`.
    Element,
}

/// What stands between two terms.
#[derive(Clone, Copy, PartialEq, Eq)]
pub enum Infix {
    /// `;`, between what is looked up and the rows.
    Semicolon,
    /// `,`, in a list.
    Comma,
    /// Nothing, between the words in braces.
    Beside,
    /// `:`, in a row.
    Colon,
    /// `then`.
    Then,
    /// `else`.
    Else,
    /// `iff`.
    Iff,
    /// `implies`.
    Implies,
    /// `xor`.
    Xor,
    /// `or`.
    Or,
    /// `and`.
    And,
    /// `==`.
    Equal,
    /// `!=`.
    Unequal,
    /// `<`.
    Less,
    /// `<=`.
    AtMost,
    /// `>`.
    Greater,
    /// `>=`.
    AtLeast,
    /// `in`.
    In,
    /// `..`, between two ends.
    UpTo,
    /// `+`.
    Plus,
    /// `-`.
    Minus,
    /// `*`.
    Times,
    /// `//`, rounded down.
    Over,
    /// `%`, what `//` leaves.
    Remainder,
    /// `**`.
    Power,
}
