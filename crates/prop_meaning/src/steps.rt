//! Of what a fresh cell is made.

/// A function of one point.
#[derive(Clone, Copy, PartialEq, Eq)]
pub enum Single {
    /// How far a number is from zero.
    Abs,
    /// The other truth.
    Not,
}

/// A function of two points.
#[derive(Clone, Copy, PartialEq, Eq)]
pub enum Pair {
    Sum,
    Difference,
    Product,
    Max,
    Min,
    /// Whether the first number is less.
    Less,
    /// Whether they are the same.
    Same,
    And,
    Or,
}

/// What a fresh cell is: a constant, or a function of cells before it.
#[derive(Clone, Copy, PartialEq, Eq)]
pub enum Step {
    Number(i64),
    Element(u8),
    Symbol(u32),
    One(Single, usize),
    Two(Pair, usize, usize),
    /// The second where the first is `yes`, and else the third.
    Choice(usize, usize, usize),
    /// The first by the second, rounded down.
    Quotient(usize, usize),
    /// What is left of the first where the second is taken away, a multiple of the third.
    Left(usize, usize, usize),
}
