//! Commands, as they stand on a line.

/// What stands in a value's place: a word, or words in braces.
#[derive(Drop)]
pub enum Value<'a> {
    Bare(&'a [u8]),
    Braces(Vec<&'a [u8]>),
}

/// The word for a cell's kind: `span`, `truth`, `symbol`, or a domain's name.
#[derive(Clone, Copy)]
pub enum KindWord<'a> {
    Spans,
    Truths,
    Symbols,
    Named(&'a str),
}

/// What follows `by`: nothing, a number from 1 to 1,000,000,000, or a relation's name.
#[derive(Clone, Copy)]
pub enum By<'a> {
    Nothing,
    Number(i64),
    Relation(&'a str),
}

/// What a step's use is given: what stands behind its `by`, as in a command, or behind `by *` what
/// the definition itself is given.
#[derive(Clone, Copy)]
pub enum Passed<'a> {
    Said(By<'a>),
    Own,
}

/// A step of a definition: `local n KIND`, `local n like p`, or a use of a procedure or of an
/// earlier definition on cells.
#[derive(Drop)]
pub enum Step<'a> {
    Local(&'a str, KindWord<'a>),
    Like(&'a str, &'a str),
    Use(&'a str, Vec<&'a str>, Passed<'a>),
}

/// A command with its words and numbers as read, in the order in which they stand on the line: of
/// `Tell` the premise, then the cell, of `Choose` the name, the cell and two to eight values, of
/// `Relation` the name, the two domains, and the pairs, whose words need not be names, and of
/// `Define` the name, the parameters and the steps. `Silent` is a line that gets no reply.
#[derive(Drop)]
pub enum Command<'a> {
    Silent,
    Domain(&'a str, Vec<&'a str>),
    Relation(&'a str, &'a str, &'a str, Vec<(&'a [u8], &'a [u8])>),
    Cell(&'a str, KindWord<'a>),
    Define(&'a str, Vec<&'a str>, Vec<Step<'a>>),
    Attach(&'a str, Vec<&'a str>, By<'a>),
    Fix(&'a str, Value<'a>),
    Tell(&'a str, &'a str, Value<'a>),
    Choose(&'a str, &'a str, Vec<Value<'a>>),
    Kick(&'a str),
    Bring(&'a str),
    Forget(&'a str),
    Limit(u64),
    Settle,
    Ask(&'a str),
    Why(&'a str),
    Core(&'a str),
    Worldview,
    Nogoods,
}
