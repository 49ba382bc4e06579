//! What the program comes with: what its procedures are made of, and the lines of its preludes.
ghost use Rattle.std.specs.Prelude.{◌≡◌, ◌++◌, [], IfOk, OnOk, map};
ghost use Rattle.prop_language.specs.Said.{words};
ghost use Rattle.prop_arith.specs.Kit.{in_order as kits};
ghost use Rattle.prop_hall.specs.Excluder.{in_order as excluders};
ghost use Rattle.prop_many.specs.Procedures.{circuits_in_order as circuits_named};
ghost use Rattle.prop_many.specs.Procedures.{in_order as many_named, tasks_in_order as tasks_named};
ghost use Rattle.prop_rows.specs.Procedures.{counts_in_order as counts_named};
ghost use Rattle.prop_rows.specs.Procedures.{greatest_in_order as greatest_named};
ghost use Rattle.prop_rows.specs.Procedures.{in_order as row_named};
ghost use Rattle.prop_rows.specs.Procedures.{least_in_order as least_named};
ghost use Rattle.prop_wide.specs.Procedures.{in_order as named};
ghost use Rattle.propwide.specs.Kits.{answer_of, in_order, larger_of, lines_in_order};
ghost use Rattle.propwide.specs.Kits.{of_excluder, of_kit, of_many, of_rows, of_wide, shown};

use prop_arith::{KITS, Kit, PRELUDE};
use prop_hall::{EXCLUDERS, Excluder};
use prop_lattice::Info;
use prop_many::{
    CIRCUITS, Many, PRELUDE as MANY_PRELUDE, PROCEDURES as MANY_PROCEDURES, TASKS,
    circuits_are_stated, prelude_is_stated as many_prelude_is_stated,
    procedures_are_stated as many_are_stated, tasks_are_stated,
};
use prop_procedures::{Both, Named, Need, Param, Shape};
use prop_rows::{
    COUNTS, GREATEST, LEAST, MORE, PRELUDE as ROW_PRELUDE, PROCEDURES as ROW_PROCEDURES, Row,
    ins as row_ins, more_is_stated, others_are_stated, prelude_is_stated,
    procedures_are_stated as rows_are_stated,
};
use prop_wide::{DIFFERENT, PRELUDE as WIDE_PRELUDE, PROCEDURES, Wide, procedures_are_stated};
use std::alloc::{AllocError, Global};

/// An excluder, or a rule of many cells or of rows.
type Larger = Both<Excluder, Both<Many, Row>>;

/// A rule of the kit, a wider one or a larger one.
pub type Mixed = Both<Kit, Both<Wide, Larger>>;

/// What a procedure is made of.
#[derive(Drop)]
pub struct Entry {
    /// The name that a command uses.
    pub name: &'static str,
    /// The shapes of the inputs.
    pub ins: &'static [Shape],
    /// The shape of the output.
    pub out: Shape,
    /// The parameter that is needed.
    pub need: Need,
    /// What it means.
    pub rule: Mixed,
}

/// The kit, then the wider procedures, then the excluders, then the procedures of many cells and of
/// rows.
pub fn entries(alloc: Global) -> Result<Vec<Entry>, AllocError>
    ensures { IfOk result (λ made. map shown made.items ≡ in_order) }
{
    let mut made = Vec::new(alloc);
    match add_all(&mut made) {
        Ok(()) => Ok(made),
        Err(error) => Err(error),
    }
}

/// Adds all procedures, in order.
fn add_all(made: &mut Vec<Entry>) -> Result<(), AllocError>
    requires { made.old.items ≡ [] }
    ensures { OnOk result (map shown made.new.items ≡ in_order) }
{
    add_kit(made)?;
    add_wider(made)?;
    add_excluders(made)?;
    add_many(made)?;
    add_tasks(made)?;
    add_circuits(made)?;
    add_rows(made)?;
    add_counts(made)?;
    add_greatest(made)?;
    add_least(made)
}

/// Adds the procedures of the kit.
fn add_kit(made: &mut Vec<Entry>) -> Result<(), AllocError>
    ensures { OnOk result
        (map shown made.new.items ≡ map shown made.old.items ++ map of_kit kits) }
{
    for rule in KITS {
        made.push(Entry {
            name: rule.name(),
            ins: rule.ins(),
            out: rule.out(),
            need: rule.need(),
            rule: Both::One(rule),
        })?;
    }
    Ok(())
}

/// Adds the wider procedures.
fn add_wider(made: &mut Vec<Entry>) -> Result<(), AllocError>
    ensures { OnOk result
        (map shown made.new.items ≡ map shown made.old.items ++ map of_wide named) }
{
    // (so that the table is the one that is stated)
    procedures_are_stated();
    for (name, rule, ins) in PROCEDURES {
        made.push(Entry {
            name,
            ins,
            out: rule.out(),
            need: rule.need(),
            rule: Both::Two(Both::One(rule)),
        })?;
    }
    Ok(())
}

/// Adds the excluders.
fn add_excluders(made: &mut Vec<Entry>) -> Result<(), AllocError>
    ensures { OnOk result
        (map shown made.new.items ≡ map shown made.old.items ++ map of_excluder excluders) }
{
    for rule in EXCLUDERS {
        made.push(Entry {
            name: rule.name(),
            ins: rule.ins(),
            out: rule.out(),
            need: rule.need(),
            rule: Both::Two(Both::Two(Both::One(rule))),
        })?;
    }
    Ok(())
}

/// Adds the procedures of many cells.
fn add_many(made: &mut Vec<Entry>) -> Result<(), AllocError>
    ensures { OnOk result
        (map shown made.new.items ≡ map shown made.old.items ++ map of_many many_named) }
{
    // (so that the table is the one that is stated)
    many_are_stated();
    for row in &MANY_PROCEDURES {
        let (name, rule, ins) = *row;
        made.push(Entry {
            name,
            ins,
            out: Shape::Span,
            need: Need::Nothing,
            rule: Both::Two(Both::Two(Both::Two(Both::One(rule)))),
        })?;
    }
    Ok(())
}

/// Adds the procedures of tasks beside many others, and of tasks that pause.
fn add_tasks(made: &mut Vec<Entry>) -> Result<(), AllocError>
    ensures { OnOk result
        (map shown made.new.items ≡ map shown made.old.items ++ map of_many tasks_named) }
{
    // (so that the table is the one that is stated)
    tasks_are_stated();
    for row in &TASKS {
        let (name, rule, ins) = *row;
        made.push(Entry {
            name,
            ins,
            out: Shape::Span,
            need: Need::Nothing,
            rule: Both::Two(Both::Two(Both::Two(Both::One(rule)))),
        })?;
    }
    Ok(())
}

/// Adds the procedures of circuits.
fn add_circuits(made: &mut Vec<Entry>) -> Result<(), AllocError>
    ensures { OnOk result
        (map shown made.new.items ≡ map shown made.old.items ++ map of_many circuits_named) }
{
    // (so that the table is the one that is stated)
    circuits_are_stated();
    for row in &CIRCUITS {
        let (name, rule, ins) = *row;
        made.push(Entry {
            name,
            ins,
            out: Shape::Span,
            need: Need::Nothing,
            rule: Both::Two(Both::Two(Both::Two(Both::One(rule)))),
        })?;
    }
    Ok(())
}

/// Adds the procedures of rows.
fn add_rows(made: &mut Vec<Entry>) -> Result<(), AllocError>
    ensures { OnOk result
        (map shown made.new.items ≡ map shown made.old.items ++ map of_rows row_named) }
{
    // (so that the table is the one that is stated)
    rows_are_stated();
    for row in &ROW_PROCEDURES {
        let (name, rule, many) = *row;
        made.push(Entry {
            name,
            ins: row_ins(rule, many),
            out: rule.out(),
            need: Need::Nothing,
            rule: Both::Two(Both::Two(Both::Two(Both::Two(rule)))),
        })?;
    }
    Ok(())
}

/// Adds the procedures of counts.
fn add_counts(made: &mut Vec<Entry>) -> Result<(), AllocError>
    ensures { OnOk result
        (map shown made.new.items ≡ map shown made.old.items ++ map of_rows counts_named) }
{
    // (so that the table is the one that is stated)
    others_are_stated();
    for row in &COUNTS {
        let (name, rule, many) = *row;
        made.push(Entry {
            name,
            ins: row_ins(rule, many),
            out: rule.out(),
            need: Need::Nothing,
            rule: Both::Two(Both::Two(Both::Two(Both::Two(rule)))),
        })?;
    }
    Ok(())
}

/// Adds the procedures of the greatest of numbers.
fn add_greatest(made: &mut Vec<Entry>) -> Result<(), AllocError>
    ensures { OnOk result
        (map shown made.new.items ≡ map shown made.old.items ++ map of_rows greatest_named) }
{
    // (so that the table is the one that is stated)
    others_are_stated();
    for row in &GREATEST {
        let (name, rule, many) = *row;
        made.push(Entry {
            name,
            ins: row_ins(rule, many),
            out: rule.out(),
            need: Need::Nothing,
            rule: Both::Two(Both::Two(Both::Two(Both::Two(rule)))),
        })?;
    }
    Ok(())
}

/// Adds the procedures of the least of numbers.
fn add_least(made: &mut Vec<Entry>) -> Result<(), AllocError>
    ensures { OnOk result
        (map shown made.new.items ≡ map shown made.old.items ++ map of_rows least_named) }
{
    // (so that the table is the one that is stated)
    others_are_stated();
    for row in &LEAST {
        let (name, rule, many) = *row;
        made.push(Entry {
            name,
            ins: row_ins(rule, many),
            out: rule.out(),
            need: Need::Nothing,
            rule: Both::Two(Both::Two(Both::Two(Both::Two(rule)))),
        })?;
    }
    Ok(())
}

/// The preludes of the kit, of the wider procedures, of the excluders, of many cells and of the
/// rows, in this order.
pub fn lines(alloc: Global) -> Result<Vec<&'static str>, AllocError>
    ensures { IfOk result (λ all. words all.items ≡ lines_in_order) }
{
    // (so that the lines are those that are stated)
    many_prelude_is_stated();
    prelude_is_stated();
    more_is_stated();
    let mut all = Vec::new(alloc);
    all.extend_from_slice(&PRELUDE)?;
    all.extend_from_slice(&WIDE_PRELUDE)?;
    all.extend_from_slice(&DIFFERENT)?;
    all.extend_from_slice(&MANY_PRELUDE)?;
    all.extend_from_slice(&ROW_PRELUDE)?;
    all.extend_from_slice(&MORE)?;
    Ok(all)
}

/// What the rule answers to a parameter and arguments.
pub fn answer(rule: &Mixed, param: &Param, args: &[Info]) -> Info
    ensures { result ≡ answer_of rule.now param.now args.now }
{
    match rule {
        Both::One(rule) => rule.run(param, args),
        Both::Two(Both::One(rule)) => rule.run(param, args),
        Both::Two(Both::Two(rule)) => larger(rule, param, args),
    }
}

/// What a larger rule answers to a parameter and arguments.
fn larger(rule: &Larger, param: &Param, args: &[Info]) -> Info
    ensures { result ≡ larger_of rule.now param.now args.now }
{
    match rule {
        Both::One(rule) => rule.run(param, args),
        Both::Two(Both::One(rule)) => rule.run(args),
        Both::Two(Both::Two(rule)) => rule.run(args),
    }
}

/// The rule once more.
pub fn copied(rule: &Mixed) -> Mixed
    ensures { result ≡ rule.now }
{
    match rule {
        Both::One(rule) => Both::One(*rule),
        Both::Two(Both::One(rule)) => Both::Two(Both::One(*rule)),
        Both::Two(Both::Two(rule)) => Both::Two(Both::Two(copied_larger(rule))),
    }
}

/// The rule once more.
fn copied_larger(rule: &Larger) -> Larger
    ensures { result ≡ rule.now }
{
    match rule {
        Both::One(rule) => Both::One(*rule),
        Both::Two(Both::One(rule)) => Both::Two(Both::One(*rule)),
        Both::Two(Both::Two(rule)) => Both::Two(Both::Two(*rule)),
    }
}
