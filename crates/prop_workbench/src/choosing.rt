//! The command that makes a choice.
ghost use Rattle.std.specs.Prelude.{◌≡◌, ◌≤◌, ◌⊎◌, None, Some, IfOk, IfErr, OnOk};
ghost use Rattle.std.specs.Prelude.{OnErr, map, length};
ghost use Rattle.prop_refusals.specs.declared.refusal.Refusal.TheVariants.{Memory};
ghost use Rattle.prop_language.specs.Said.{value_of};
ghost use Rattle.prop_vocabulary.specs.Said.{meant_of};
ghost use Rattle.prop_vocabulary.specs.Vocabulary.{with_first_symbols};
ghost use Rattle.prop_workbench.specs.inner.Choosing.{earlier, values_refusal};
ghost use Rattle.prop_workbench.specs.inner.Choosing.{meanings_of, infos_meant};
ghost use Rattle.prop_workbench.specs.inner.Effects.{info_meant, with_meants};
ghost use Rattle.prop_workbench.specs.inner.Refusing.{with_meant, naming_limit, all_naming_limit};
ghost use Rattle.prop_compound.specs.Kinds.{IsKnown};

use crate::session::Session;
use crate::stating::meaning;
use prop_compound::Value;
use prop_lattice::{Info, Kind, Limit, Refusal};
use prop_procedures::Rule;
use prop_scheduler::{Order, state_sides};
use prop_vocabulary::{Meant, Vocabulary};
use std::alloc::{AllocError, Global};

/// Of what was met before, where there was anything, and what is met now, what comes first: of the
/// refusals that a choice's name and values meet, the numbers are in the order of refusals.
fn earlier(before: Option<Refusal>, now: Refusal) -> Refusal
    ensures { result ≡ earlier before now }
{
    match before {
        Some(before) => {
            if before.number() <= now.number() {
                before
            } else {
                now
            }
        }
        None => now,
    }
}

/// What each value means at a cell of the kind, in order, or why a choice between them is refused,
/// whose name may be taken: the first refusal in the order of refusals, or want of memory.
fn meanings<'a>(
    alloc: Global,
    words: &Vocabulary,
    kind: Kind,
    is_taken: bool,
    values: &[Value<'a>],
) -> Result<Vec<Meant<'a>>, Refusal>
    requires { IsKnown words.now kind }
    ensures ok { IfOk result (λ meants.
        map meant_of meants.items ≡ meanings_of words.now kind (map value_of values.now)) }
    ensures none { OnOk result
        (values_refusal words.now kind is_taken (map value_of values.now) ≡ None) }
    ensures err { IfErr result (λ e.
        (values_refusal words.now kind is_taken (map value_of values.now) ≡ Some e)
        ⊎ (e ≡ Memory)) }
{
    let Ok(mut meants) = Vec::with_capacity(alloc, values.len()) else {
        return Err(Refusal::Memory);
    };
    let mut first = is_taken.then_some(Refusal::NameTaken);
    for value in values {
        match meaning(words, kind, value) {
            Ok(meant) => match meants.push(meant) {
                Ok(()) => {}
                Err(_) => return Err(Refusal::Memory),
            },
            Err(refusal) => first = Some(earlier(first, refusal)),
        }
    }
    match first {
        Some(refusal) => Err(refusal),
        None => Ok(meants),
    }
}

/// The information that is meant; the symbol that is named is new or known.
fn info_of(words: &mut Vocabulary, meant: Meant) -> Result<Info, Refusal>
    ensures info { IfOk result (λ i. i ≡ info_meant words.old (meant_of meant.entry)) }
    ensures words { OnOk result (words.new ≡ with_meant words.old (meant_of meant.entry)) }
    ensures fits { OnOk result (naming_limit words.old (meant_of meant.entry) ≡ None) }
    ensures err { IfErr result (λ e.
        (naming_limit words.old (meant_of meant.entry) ≡ Some e) ⊎ (e ≡ Memory)) }
    ensures same { OnErr result (words.new ≡ words.old) }
{
    match meant {
        Meant::Known(info) => Ok(info),
        Meant::Name(symbol) => Ok(Info::Sym(words.add_symbol(symbol)?)),
    }
}

/// The information of each that is meant, in order; the symbols that are named are new or known.
fn infos_of(alloc: Global, words: &mut Vocabulary, meants: &[Meant]) -> Result<Vec<Info>, Refusal>
    ensures infos { IfOk result (λ infos.
        infos.items ≡ infos_meant words.old (map meant_of meants.now)) }
    ensures words { OnOk result (words.new ≡ with_meants words.old (map meant_of meants.now)) }
    ensures fits { OnOk result (all_naming_limit words.old (map meant_of meants.now) ≡ None) }
    ensures err { IfErr result (λ e.
        (all_naming_limit words.old (map meant_of meants.now) ≡ Some e) ⊎ (e ≡ Memory)) }
    ensures domains { words.new.domains ≡ words.old.domains }
    ensures back { with_first_symbols words.new (length words.old.symbols) ≡ words.old }
{
    let Ok(mut infos) = Vec::with_capacity(alloc, meants.len()) else {
        return Err(Refusal::Memory);
    };
    for meant in meants {
        match info_of(words, *meant) {
            Ok(info) => match infos.push(info) {
                Ok(()) => {}
                Err(_) => return Err(Refusal::Memory),
            },
            Err(refusal) => return Err(refusal),
        }
    }
    Ok(infos)
}

impl<R: Rule + Drop, O: Order + Drop> Session<R, O> {
    ghost use Rattle.std.specs.Prelude.{◌≡◌, ◌≤◌, ◌<◌, ◌⊎◌, ◌++◌, ◌∷◌, [], ◌||◌, ℕ, None, Some};
    ghost use Rattle.std.specs.Prelude.{All, false, is_some, OnOk, OnErr, IfOk, IfErr, map, length};
    ghost use Rattle.prop_refusals.specs.declared.refusal.Refusal.TheVariants.{Memory};
    ghost use Rattle.prop_premises.specs.Origins.{premise_number, is_choice, with_choice};
    ghost use Rattle.prop_language.specs.Commands as commands;
    ghost use Rattle.prop_language.specs.Said.{value_of};
    ghost use Rattle.prop_procedures.specs.Fitting.{kind_at};
    ghost use Rattle.prop_vocabulary.specs.Values.{Known};
    ghost use Rattle.prop_cells.specs.Sides.{sides_at};
    ghost use Rattle.prop_vocabulary.specs.Said.{meant_of};
    ghost use Rattle.prop_workbench.specs.inner.Choosing.{IsMeaning};
    ghost use Rattle.prop_workbench.specs.inner.Effects.{chosen};
    ghost use Rattle.prop_workbench.specs.inner.Effects.{MayMean};
    ghost use Rattle.prop_workbench.specs.inner.Refusing.{choosing_limit, choosing_limit_of};
    ghost use Rattle.prop_workbench.specs.Sessions.{state_of, IsInOrder};
    ghost use Rattle.prop_workbench.specs.inner.Sessions.{Keeps};
    ghost use Rattle.prop_workbench.specs.inner.Carrying.{IsDone, HasLeft, HasChosen};

    /// A choice with a new name between what the values say at a cell.
    pub(crate) fn choose(
        &mut self,
        choice: &str,
        name: &str,
        values: &[Value],
    ) -> Result<(), Refusal>
        requires sound { IsInOrder R.value_of self.old }
        requires some { 2 ≤ length values.now }
        requires few { length values.now ≤ 8 }
        ensures keeps { Keeps R.value_of self.old self.new }
        ensures step { IsDone R.value_of self.old
            (commands.Command.Choose choice.now name.now (map value_of values.now)) result
            self.new }
        ensures wakes { HasLeft self.old
            (commands.Command.Choose choice.now name.now (map value_of values.now))
            result self.new }
    {
        let is_taken = self.is_taken(choice);
        let cell = match self.names.find(name) {
            Some(cell) => cell,
            None if is_taken => return Err(Refusal::NameTaken),
            None => return Err(Refusal::NoSuchCell),
        };
        let kind = self.live.network().data().kind(cell).kind;
        match meanings(self.alloc, &self.words, kind, is_taken, values) {
            Ok(meants) => self.choose_meant(choice, cell, &meants),
            Err(refusal) => Err(refusal),
        }
    }

    /// Whether a premise or a choice has the name.
    fn is_taken(&self, name: &str) -> bool
        ensures { result ≡ (is_some (premise_number self.now.search.premises name.now) || is_choice
            self.now.search.premises name.now) }
    {
        !matches!(
            self.search.premises().find(name),
            Err(Refusal::NoSuchPremise)
        )
    }

    /// A choice with a new name between what is meant at a cell, where there is room.
    fn choose_meant(&mut self, choice: &str, cell: usize, meants: &[Meant]) -> Result<(), Refusal>
        requires sound { IsInOrder R.value_of self.old }
        requires cell { cell < length self.old.live.network.cells.kinds }
        requires mean { All
            (IsMeaning self.old.words (kind_at self.old.live.network.cells.kinds cell).kind)
            (map meant_of meants.now) }
        requires new { premise_number self.old.search.premises choice.now ≡ None }
        requires free { is_choice self.old.search.premises choice.now ≡ false }
        requires some { 2 ≤ length meants.now }
        requires few { length meants.now ≤ 8 }
        ensures keeps { Keeps R.value_of self.old self.new }
        ensures fits { OnOk result
            (choosing_limit_of (state_of self.old) (map meant_of meants.now) ≡ None) }
        ensures ok { OnOk result (state_of self.new ≡ chosen (state_of self.old) choice.now cell
            (map meant_of meants.now)) }
        ensures err { IfErr result (λ e.
            (choosing_limit_of (state_of self.old) (map meant_of meants.now) ≡ Some e)
            ⊎ (e ≡ Memory)) }
        ensures err_same { OnErr result (state_of self.new ≡ state_of self.old) }
        ensures chosen { HasChosen self.old result self.new }
    {
        match self.choosing_limit(meants.len()) {
            Some(refusal) => return Err(refusal),
            None => {}
        }
        let count = self.words.symbol_count();
        match infos_of(self.alloc, &mut self.words, meants) {
            Ok(infos) => match self.choose_between(choice, cell, &infos) {
                Ok(()) => Ok(()),
                Err(refusal) => {
                    self.words.keep_symbols(count);
                    Err(refusal)
                }
            },
            Err(refusal) => {
                self.words.keep_symbols(count);
                Err(refusal)
            }
        }
    }

    /// Why a choice of so many sides is refused: there would be too many premises, choices or
    /// statements.
    fn choosing_limit(&self, sides: usize) -> Option<Refusal>
        requires few { sides ≤ 8 }
        ensures { result ≡ choosing_limit (state_of self.now) sides }
    {
        if self.search.premises().len() + sides > Limit::Premises.most() {
            Some(Refusal::LimitReached(Limit::Premises))
        } else if self.search.premises().choices().len() >= Limit::Choices.most() {
            Some(Refusal::LimitReached(Limit::Choices))
        } else if self.live.network().data().statement_count() > Limit::Statements.most() - sides {
            Some(Refusal::LimitReached(Limit::Statements))
        } else {
            None
        }
    }

    /// A choice with a new name between the informations at a cell.
    fn choose_between(&mut self, choice: &str, cell: usize, infos: &[Info]) -> Result<(), Refusal>
        requires sound { IsInOrder R.value_of self.old }
        requires cell { cell < length self.old.live.network.cells.kinds }
        requires may { All (λ info. MayMean (kind_at self.old.live.network.cells.kinds cell)
            (Known info)) infos.now }
        requires new { premise_number self.old.search.premises choice.now ≡ None }
        requires free { is_choice self.old.search.premises choice.now ≡ false }
        requires fits { choosing_limit (state_of self.old) (length infos.now) ≡ None }
        requires some { 2 ≤ length infos.now }
        requires few { length infos.now ≤ 8 }
        ensures keeps { Keeps R.value_of self.old self.new }
        ensures words { self.new.words ≡ self.old.words }
        ensures ok { OnOk result (state_of self.new
            ≡ record (state_of self.old) {
              premises = with_choice self.old.search.premises
                  choice.now (length infos.now);
              statements =
                  self.old.live.network.cells.statements
                  ++ sides_at (length self.old.search.premises) cell infos.now;
            }) }
        ensures err { IfErr result (λ e. e ≡ Memory) }
        ensures err_same { OnErr result (state_of self.new ≡ state_of self.old) }
        ensures chosen { HasChosen self.old result self.new }
    {
        let choice = match self.search.declare(choice, infos.len() as u8) {
            Ok(choice) => choice,
            Err(AllocError) => return Err(Refusal::Memory),
        };
        match state_sides(
            &mut self.live,
            self.search.worldview(),
            choice.first,
            cell,
            infos,
        ) {
            Ok(()) => Ok(()),
            Err(refusal) => {
                self.search.undeclare(choice);
                Err(refusal)
            }
        }
    }
}
