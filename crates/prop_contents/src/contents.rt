//! The entries of cells, in one worldview.
ghost use Rattle.std.specs.Prelude.{◌≡◌, ◌↔◌, ◌≢◌, ◌<◌, ◌≤◌, ◌⊎◌, ℕ, List, [], length, filter, not};
ghost use Rattle.std.specs.Prelude.{◌+◌, map, Some};
ghost use Rattle.std.specs.Prelude.{All, Contains, IsTrue, IsOk, IfOk, IfSome, OnOk, OnErr, None};
ghost use Rattle.std.specs.Prelude.{false};
ghost use Rattle.std.specs.List.{list_any};
ghost use Rattle.prop_lattice.specs.Order.{Below, merge_of, is_contradiction};
ghost use Rattle.prop_tms.specs.Beliefs.{AreNeeded};
ghost use Rattle.prop_numbers.specs.Sets.{set_of, union, is_within, is_at_most_one_of, IsSame};
ghost use Rattle.prop_contents.specs.Contents.{beliefs, support_of, IsSupport, IsLeanAt, Entry};
ghost use Rattle.prop_contents.specs.Contents.{content_of};
ghost use Rattle.prop_contents.specs.Changes.{AddsAt, TrimsAt, derived_of, most_derived, StandsAt};
ghost use Rattle.prop_contents.specs.Changes.{entries_below};
ghost use Rattle.prop_contents.specs.Knowing.{AreBeliefs, ArePassed, known_at};

use crate::known::Known;
use prop_lattice::{Info, Partial};
use prop_premises::{Premise, PremiseSet, Shift, Worldview};
use prop_tms::{Supported, Tms};
use smallvec::SmallVec;
use std::alloc::{AllocError, Global};

/// What is believed of a cell.
pub fn belief_of(contents: &[Tms<Info>], cell: usize, worldview: &Worldview) -> Info
    requires { cell < length contents.now }
    ensures { result ≡ beliefs (set_of worldview.now) contents.now cell }
{
    contents[cell].believed_value(worldview)
}

/// What is believed of a cell is worked out, and known from then on where there is room. It takes
/// no memory.
#[inline(never)]
pub(crate) fn learn(
    contents: &[Tms<Info>],
    cell: usize,
    worldview: &Worldview,
    known: &mut Known,
) -> Info
    requires cell { cell < length contents.now }
    requires known { AreBeliefs (set_of worldview.now) contents.now known.old }
    ensures value { result ≡ beliefs (set_of worldview.now) contents.now cell }
    ensures known { AreBeliefs (set_of worldview.now) contents.now known.new }
{
    let info = belief_of(contents, cell, worldview);
    known.put(cell, info);
    info
}

/// What is believed of a cell. It is worked out only where it isn't known, and known from then on
/// where there is room. It takes no memory.
#[inline]
pub fn known_belief(
    contents: &[Tms<Info>],
    cell: usize,
    worldview: &Worldview,
    known: &mut Known,
) -> Info
    requires cell { cell < length contents.now }
    requires known { AreBeliefs (set_of worldview.now) contents.now known.old }
    ensures value { result ≡ beliefs (set_of worldview.now) contents.now cell }
    ensures known { AreBeliefs (set_of worldview.now) contents.now known.new }
{
    if let Some(info) = known.get(cell) {
        return info;
    }
    learn(contents, cell, worldview, known)
}

/// What is believed of a cell is worked out, written to a place, and known from then on where there
/// is room. It takes no memory.
#[inline(never)]
fn learn_to(
    contents: &[Tms<Info>],
    cell: usize,
    worldview: &Worldview,
    known: &mut Known,
    place: &mut Info,
)
    requires cell { cell < length contents.now }
    requires known { AreBeliefs (set_of worldview.now) contents.now known.old }
    ensures value { place.new ≡ beliefs (set_of worldview.now) contents.now cell }
    ensures known { AreBeliefs (set_of worldview.now) contents.now known.new }
{
    *place = learn(contents, cell, worldview, known);
}

/// Writes what is believed of a cell, which is then known, to a place. It takes no memory.
#[inline]
fn write_belief(
    contents: &[Tms<Info>],
    cell: usize,
    worldview: &Worldview,
    known: &mut Known,
    place: &mut Info,
)
    requires cell { cell < length contents.now }
    requires known { AreBeliefs (set_of worldview.now) contents.now known.old }
    ensures value { place.new ≡ beliefs (set_of worldview.now) contents.now cell }
    ensures known { AreBeliefs (set_of worldview.now) contents.now known.new }
{
    match known.find(cell) {
        Some(info) => *place = *info,
        None => learn_to(contents, cell, worldview, known, place),
    }
}

/// Whether what is believed of a cell, which is then known, says as much as this. It takes no
/// memory.
#[inline]
pub fn knows(
    contents: &[Tms<Info>],
    cell: usize,
    value: Info,
    worldview: &Worldview,
    known: &mut Known,
) -> bool
    requires cell { cell < length contents.now }
    requires known { AreBeliefs (set_of worldview.now) contents.now known.old }
    ensures knows { IsTrue result ↔ Below value
        (beliefs (set_of worldview.now) contents.now cell) }
    ensures known { AreBeliefs (set_of worldview.now) contents.now known.new }
{
    if let Some(info) = known.find(cell) {
        return info.implies(value);
    }
    learn(contents, cell, worldview, known).implies(value)
}

/// What is believed of a cell before a walk has come to it. It is worked out only where it isn't
/// known. It takes no memory.
fn belief_ahead(contents: &[Tms<Info>], cell: usize, before: &Worldview, known: &Known) -> Info
    requires cell { cell < length contents.now }
    requires known { (info : Info) → known_at known.now cell ≡ Some info
        → beliefs (set_of before.now) contents.now cell ≡ info }
    ensures { result ≡ beliefs (set_of before.now) contents.now cell }
{
    match known.get(cell) {
        Some(info) => info,
        None => belief_of(contents, cell, before),
    }
}

/// Whether two informations say the same.
#[inline]
fn is_same(a: Info, b: Info) -> bool
    ensures { IsTrue result ↔ (a ≡ b) }
{
    a.implies(b) && b.implies(a)
}

/// Whether what is believed of a cell differs between two worldviews. What is known of the cells is
/// believed in the second where they are below this one, and in the first else; then it is so below
/// the next. It takes no memory.
pub(crate) fn is_shifted(
    contents: &[Tms<Info>],
    cell: usize,
    shift: &Shift<'_>,
    known: &mut Known,
) -> bool
    requires cell { cell < length contents.now }
    requires known { ArePassed cell (set_of shift.now.before.now) (set_of shift.now.after.now)
        contents.now known.old }
    ensures shifted { IsTrue result
        → beliefs (set_of shift.now.before.now) contents.now cell
        ≢ beliefs (set_of shift.now.after.now) contents.now cell }
    ensures stays { result ≡ false
        → beliefs (set_of shift.now.before.now) contents.now cell
        ≡ beliefs (set_of shift.now.after.now) contents.now cell }
    ensures known { ArePassed (cell + 1) (set_of shift.now.before.now) (set_of shift.now.after.now)
        contents.now known.new }
{
    if !contents[cell].may_shift(shift) {
        return false;
    }
    let was = belief_ahead(contents, cell, shift.before, known);
    let is = belief_of(contents, cell, shift.after);
    known.put(cell, is);
    !is_same(was, is)
}

/// What is believed of a cell, with a lean support.
pub fn strongest_of(
    contents: &[Tms<Info>],
    cell: usize,
    worldview: &Worldview,
) -> Result<Supported<Info>, AllocError>
    requires { cell < length contents.now }
    ensures nothing { beliefs (set_of worldview.now) contents.now cell ≡ Info.Nothing
        → IsOk result }
    ensures value { IfOk result (λ e. e.value ≡ beliefs (set_of worldview.now) contents.now cell) }
    ensures lean { IfOk result (λ e. IsLeanAt (set_of worldview.now) contents.now cell e.support) }
{
    let value = belief_of(contents, cell, worldview);
    contents[cell].strongest(worldview, value)
}

/// The first cell that is believed to hold a contradiction.
pub fn first_clash(contents: &[Tms<Info>], worldview: &Worldview) -> Option<usize>
    ensures found { IfSome result
        (λ cell. (cell < length contents.now)
        × (beliefs (set_of worldview.now) contents.now cell ≡ Info.Contradiction)) }
    ensures none { result ≡ None → (cell : ℕ)
        → beliefs (set_of worldview.now) contents.now cell ≢ Info.Contradiction }
{
    for cell in 0..contents.len() {
        if belief_of(contents, cell, worldview).is_contradiction() {
            return Some(cell);
        }
    }
    None
}

/// Writes what is believed of these cells, which is then known, into as many places, and tells
/// whether one of them is believed to hold a contradiction. It takes no memory.
#[inline]
pub fn gather(
    contents: &[Tms<Info>],
    cells: &[usize],
    worldview: &Worldview,
    known: &mut Known,
    args: &mut [Info],
) -> bool
    requires cells { All (λ c. c < length contents.now) cells.now }
    requires places { length args.old ≡ length cells.now }
    requires known { AreBeliefs (set_of worldview.now) contents.now known.old }
    ensures args { args.new ≡ map (beliefs (set_of worldview.now) contents.now) cells.now }
    ensures clash { result ≡ list_any is_contradiction args.new }
    ensures known { AreBeliefs (set_of worldview.now) contents.now known.new }
{
    let mut clash = false;
    for i in 0..cells.len() {
        write_belief(contents, cells[i], worldview, known, &mut args[i]);
        clash |= args[i].is_contradiction();
    }
    clash
}

/// Adds the premises of a lean support for a cell. Where just one entry of the cell is believed,
/// its support is not copied.
#[inline]
fn unite_support(
    support: &mut PremiseSet,
    contents: &[Tms<Info>],
    cell: usize,
    worldview: &Worldview,
    known: &Known,
) -> Result<(), AllocError>
    requires cell { cell < length contents.now }
    requires known { AreBeliefs (set_of worldview.now) contents.now known.now }
    ensures { OnOk result ((part : List ℕ) × IsLeanAt (set_of worldview.now) contents.now cell part
        × IsSame (set_of support.new) (union (set_of support.old) (set_of part))) }
{
    if let Some(sole) = contents[cell].sole_support(worldview) {
        return support.unite(sole);
    }
    unite_strongest(support, contents, cell, worldview, known)
}

/// Adds the premises of a lean support for a cell, whatever entries of it are believed.
#[inline(never)]
fn unite_strongest(
    support: &mut PremiseSet,
    contents: &[Tms<Info>],
    cell: usize,
    worldview: &Worldview,
    known: &Known,
) -> Result<(), AllocError>
    requires cell { cell < length contents.now }
    requires known { AreBeliefs (set_of worldview.now) contents.now known.now }
    ensures { OnOk result ((part : List ℕ) × IsLeanAt (set_of worldview.now) contents.now cell part
        × IsSame (set_of support.new) (union (set_of support.old) (set_of part))) }
{
    let value = belief_ahead(contents, cell, worldview, known);
    let entry = contents[cell].strongest(worldview, value)?;
    support.unite(&entry.support)
}

/// The premises of a lean support for each of these cells.
pub fn supports(
    alloc: Global,
    contents: &[Tms<Info>],
    cells: &[usize],
    worldview: &Worldview,
    known: &Known,
) -> Result<PremiseSet, AllocError>
    requires cells { All (λ c. c < length contents.now) cells.now }
    requires known { AreBeliefs (set_of worldview.now) contents.now known.now }
    ensures { IfOk result (IsSupport (set_of worldview.now) contents.now cells.now) }
{
    let mut support = PremiseSet::empty(alloc);
    for c in cells {
        unite_support(&mut support, contents, *c, worldview, known)?;
    }
    Ok(support)
}

/// The premise of a statement, or none.
pub fn support_of(alloc: Global, premise: Option<Premise>) -> Result<PremiseSet, AllocError>
    ensures { IfOk result (λ s. s ≡ support_of premise) }
{
    match premise {
        None => Ok(PremiseSet::empty(alloc)),
        Some(premise) => PremiseSet::single(alloc, premise),
    }
}

/// Adds an entry to a cell.
pub(crate) fn add_to(
    contents: &mut Vec<Tms<Info>>,
    cell: usize,
    value: Info,
    support: PremiseSet,
) -> Result<(), AllocError>
    requires { cell < length contents.old.items }
    ensures ok { OnOk result (AddsAt contents.old.items contents.new.items cell
        (record { value = value; support = support })) }
    ensures stands { OnOk result (StandsAt contents.old.items contents.new.items cell
        (record { value = value; support = support })) }
    ensures same_length { length contents.new.items ≡ length contents.old.items }
    ensures err { OnErr result (contents.new.items ≡ contents.old.items) }
{
    contents[cell].add(value, support)?;
    Ok(())
}

/// How many derived entries a cell may keep that the present worldview does without.
const MOST_DERIVED: usize = 8;

/// Whether more entries than a cell may keep rest on something else than one of the premises that
/// were told of it.
#[inline]
fn has_many_derived(content: &Tms<Info>, told: &PremiseSet) -> bool
    ensures few { result ≡ false → length
        (derived_of (set_of told.now) content.now) ≤ most_derived }
    ensures many { IsTrue result → most_derived < length
        (derived_of (set_of told.now) content.now) }
{
    content.len() > MOST_DERIVED && content.derived(told) > MOST_DERIVED
}

/// Drops entries of a cell that the worldview does without, where there are too many that rest on
/// something else than one of the premises that were told of it. It takes no memory.
pub(crate) fn trim_at(
    contents: &mut Vec<Tms<Info>>,
    cell: usize,
    told: &PremiseSet,
    worldview: &Worldview,
)
    requires { cell < length contents.old.items }
    ensures trims { TrimsAt
        (set_of worldview.now)
        (set_of told.now)
        contents.old.items
        contents.new.items
        cell }
    ensures kept { (e : Entry) → Contains (content_of contents.old.items cell) e
        → IsTrue (is_at_most_one_of (set_of told.now) e.support)
        → Contains (content_of contents.new.items cell) e }
    ensures bounded { (length (derived_of (set_of told.now) (content_of contents.new.items cell))
        ≤ most_derived)
        ⊎ AreNeeded
        Info.Nothing
        merge_of
        (set_of told.now)
        (set_of worldview.now)
        (content_of contents.new.items cell) }
{
    if has_many_derived(&contents[cell], told) {
        contents[cell].trim(told, worldview);
    }
}

/// Drops the entries of a cell whose support holds a premise with this number or a larger one.
pub(crate) fn drop_from(contents: &mut Vec<Tms<Info>>, cell: usize, premise: usize)
    requires { cell < length contents.old.items }
    ensures { contents.new.items ≡ entries_below premise contents.old.items cell }
{
    contents[cell].back(premise);
}
