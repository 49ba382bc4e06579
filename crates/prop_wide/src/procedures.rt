//! The procedures: each rule under its name, and with as many inputs as it may have.
ghost use Rattle.prop_wide.specs.Procedures.{ProceduresAreStated, EachIsFormed};

use crate::wide::Wide;
use prop_procedures::Shape;

/// A truth and two values of one kind.
const CHOICE: [Shape; 3] = [Shape::Truth, Shape::Any(0), Shape::Any(0)];

/// A number and 1 truth.
const AND_1: [Shape; 2] = [Shape::Span, Shape::Truth];
/// A number and 2 truths.
const AND_2: [Shape; 3] = [Shape::Span, Shape::Truth, Shape::Truth];
/// A number and 3 truths.
const AND_3: [Shape; 4] = [Shape::Span, Shape::Truth, Shape::Truth, Shape::Truth];
/// A number and 4 truths.
const AND_4: [Shape; 5] = [
    Shape::Span,
    Shape::Truth,
    Shape::Truth,
    Shape::Truth,
    Shape::Truth,
];
/// A number and 5 truths.
const AND_5: [Shape; 6] = [
    Shape::Span,
    Shape::Truth,
    Shape::Truth,
    Shape::Truth,
    Shape::Truth,
    Shape::Truth,
];
/// A number and 6 truths.
const AND_6: [Shape; 7] = [
    Shape::Span,
    Shape::Truth,
    Shape::Truth,
    Shape::Truth,
    Shape::Truth,
    Shape::Truth,
    Shape::Truth,
];
/// A number and 7 truths.
const AND_7: [Shape; 8] = [
    Shape::Span,
    Shape::Truth,
    Shape::Truth,
    Shape::Truth,
    Shape::Truth,
    Shape::Truth,
    Shape::Truth,
    Shape::Truth,
];

/// The name of each procedure, its rule and the shapes of its inputs, in the order in which a
/// program makes them.
pub const PROCEDURES: [(&'static str, Wide, &'static [Shape]); 29] = [
    ("maximizer", Wide::Max, &[Shape::Span; 2]),
    ("max_back", Wide::MaxBack, &[Shape::Span; 2]),
    ("minimizer", Wide::Min, &[Shape::Span; 2]),
    ("min_back", Wide::MinBack, &[Shape::Span; 2]),
    ("absoluter", Wide::Abs, &[Shape::Span; 1]),
    ("abs_back", Wide::AbsBack, &[Shape::Span; 2]),
    ("chooser", Wide::Choose, &CHOICE),
    ("decider", Wide::Decide, &[Shape::Any(0); 3]),
    ("counter1", Wide::Count, &[Shape::Truth; 1]),
    ("counter2", Wide::Count, &[Shape::Truth; 2]),
    ("counter3", Wide::Count, &[Shape::Truth; 3]),
    ("counter4", Wide::Count, &[Shape::Truth; 4]),
    ("counter5", Wide::Count, &[Shape::Truth; 5]),
    ("counter6", Wide::Count, &[Shape::Truth; 6]),
    ("counter7", Wide::Count, &[Shape::Truth; 7]),
    ("counter8", Wide::Count, &[Shape::Truth; 8]),
    ("count_back1", Wide::CountBack, &[Shape::Span; 1]),
    ("count_back2", Wide::CountBack, &AND_1),
    ("count_back3", Wide::CountBack, &AND_2),
    ("count_back4", Wide::CountBack, &AND_3),
    ("count_back5", Wide::CountBack, &AND_4),
    ("count_back6", Wide::CountBack, &AND_5),
    ("count_back7", Wide::CountBack, &AND_6),
    ("count_back8", Wide::CountBack, &AND_7),
    ("scaled_squarer", Wide::Square, &[Shape::Span; 1]),
    ("scaled_rooter", Wide::Root, &[Shape::Span; 2]),
    ("quotienter", Wide::Quotient, &[Shape::Span; 2]),
    ("remainderer", Wide::Remainder, &[Shape::Span; 1]),
    ("divisor_back", Wide::Divisor, &[Shape::Span; 2]),
];

/// The procedures are those that the specification states, and each has inputs, one to eight, that
/// its rule may have.
pub fn procedures_are_stated()
    ensures stated { ProceduresAreStated }
    ensures formed { EachIsFormed }
{}
