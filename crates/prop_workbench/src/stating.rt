//! The commands that state what is known.
ghost use Rattle.std.specs.Prelude.{◌≡◌, ◌<◌, ◌≤◌, ◌++◌, ◌∷◌, [], ℕ, ◌⊎◌, None, Some, Ok, Err};
ghost use Rattle.std.specs.Prelude.{OnOk, OnErr, IfOk, IfErr, length};
ghost use Rattle.prop_refusals.specs.declared.refusal.Refusal.TheVariants.{Memory};
ghost use Rattle.prop_language.specs.Said.{value_of};
ghost use Rattle.prop_vocabulary.specs.Said.{meant_of};
ghost use Rattle.prop_vocabulary.specs.Texts.{elements_of_kind};
ghost use Rattle.prop_workbench.specs.inner.Refusing.{meaning_at};
ghost use Rattle.prop_compound.specs.Kinds.{IsKnown};

use crate::session::Session;
use prop_compound::Value;
use prop_lattice::{Info, Kind, Limit, Refusal};
use prop_premises::Premise;
use prop_procedures::Rule;
use prop_scheduler::{Order, state};
use prop_vocabulary::{Meant, Vocabulary, read_value};
use std::alloc::AllocError;

/// What a value means at a cell of a kind.
pub(crate) fn meaning<'a>(
    words: &Vocabulary,
    kind: Kind,
    value: &Value<'a>,
) -> Result<Meant<'a>, Refusal>
    requires { IsKnown words.now kind }
    ensures ok { IfOk result (λ meant.
        meaning_at words.now kind (value_of value.now) ≡ Ok (meant_of meant)) }
    ensures err { IfErr result (λ e. meaning_at words.now kind (value_of value.now) ≡ Err e) }
    ensures few { OnOk result (length (elements_of_kind words.now kind) ≤ 64) }
{
    let domain = match kind {
        Kind::Set(number) => words.domain(number),
        Kind::Span | Kind::Symbol => words.truth(),
    };
    read_value(value, kind, domain)
}

/// Under what a value is stated: under nothing, under the premise with a name, which has this
/// number, or under a new one with a name.
#[derive(Clone, Copy)]
pub(crate) enum Under<'a> {
    Nothing,
    Known(&'a str, Premise),
    New(&'a str),
}

impl<R: Rule + Drop, O: Order + Drop> Session<R, O> {
    ghost use Rattle.std.specs.Prelude.{◌≡◌, ◌<◌, ◌++◌, ◌∷◌, [], ◌⊎◌, ℕ, true, false, None, Some};
    ghost use Rattle.std.specs.Prelude.{OnOk, OnErr, IfOk, IfErr, length};
    ghost use Rattle.prop_refusals.specs.declared.refusal.Refusal.TheVariants.{Memory, IsAChoice};
    ghost use Rattle.prop_premises.specs.Origins.{premise_number, is_choice, with_name};
    ghost use Rattle.prop_language.specs.Commands as commands;
    ghost use Rattle.prop_language.specs.Said.{value_of};
    ghost use Rattle.prop_procedures.specs.Fitting.{kind_at};
    ghost use Rattle.prop_cells.specs.Refusing.{state_refusal};
    ghost use Rattle.prop_workbench.specs.inner.Effects.{name_of, name_under, stating, MayMean};
    ghost use Rattle.prop_workbench.specs.inner.Effects.{IsUnder};
    ghost use Rattle.prop_workbench.specs.inner.Effects.{stated, info_meant};
    ghost use Rattle.prop_vocabulary.specs.Said.{meant_of};
    ghost use Rattle.prop_vocabulary.specs.Values.{Known, Name};
    ghost use Rattle.prop_vocabulary.specs.Vocabulary.{with_symbol, symbol_number};
    ghost use Rattle.prop_workbench.specs.inner.Refusing.{telling_limit, statement_limit};
    ghost use Rattle.prop_workbench.specs.inner.Refusing.{stating_limit};
    ghost use Rattle.prop_workbench.specs.inner.Refusing.{with_meant};
    ghost use Rattle.prop_workbench.specs.inner.Refusing.{is_choice_told};
    ghost use Rattle.prop_workbench.specs.Sessions.{state_of, IsInOrder};
    ghost use Rattle.prop_workbench.specs.inner.Sessions.{Keeps};
    ghost use Rattle.prop_workbench.specs.inner.Carrying.{IsDone, HasLeft, HasTold};

    /// States what a value says at a cell, under the premise with a name or under none.
    pub(crate) fn say(
        &mut self,
        premise: Option<&str>,
        name: &str,
        value: &Value,
    ) -> Result<(), Refusal>
        requires sound { IsInOrder R.value_of self.old }
        ensures keeps { Keeps R.value_of self.old self.new }
        ensures step { IsDone R.value_of self.old
            (stating (name_of premise.entry) name.now (value_of value.now)) result self.new }
        ensures wakes { HasLeft self.old
            (stating (name_of premise.entry) name.now (value_of value.now))
            result self.new }
    {
        let cell = match self.names.find(name) {
            Some(cell) => cell,
            None => return Err(Refusal::NoSuchCell),
        };
        let kind = self.live.network().data().kind(cell).kind;
        let meant = match meaning(&self.words, kind, value) {
            Ok(meant) => meant,
            Err(refusal) => return Err(refusal),
        };
        match self.under(premise) {
            Ok(under) => self.state_meant(under, cell, meant),
            Err(refusal) => Err(refusal),
        }
    }

    /// Under what is stated by this name, or `IsAChoice` where it is that of a choice. The name is
    /// looked up once.
    pub(crate) fn under<'a>(&self, premise: Option<&'a str>) -> Result<Under<'a>, Refusal>
        ensures name { IfOk result (λ under. name_under under ≡ name_of premise.entry) }
        ensures ok { IfOk result (IsUnder self.now.search.premises) }
        ensures free { OnOk result
            (is_choice_told (state_of self.now) (name_of premise.entry) ≡ false) }
        ensures err { IfErr result (λ e. (e ≡ IsAChoice)
            × (is_choice_told (state_of self.now) (name_of premise.entry) ≡ true)) }
    {
        let Some(name) = premise else {
            return Ok(Under::Nothing);
        };
        match self.search.premises().find(name) {
            Ok(known) => Ok(Under::Known(name, known)),
            Err(Refusal::IsAChoice) => Err(Refusal::IsAChoice),
            Err(_) => Ok(Under::New(name)),
        }
    }

    /// States what a value means at a cell. A symbol that it names is new or known.
    fn state_meant(&mut self, under: Under, cell: usize, meant: Meant) -> Result<(), Refusal>
        requires sound { IsInOrder R.value_of self.old }
        requires under { IsUnder self.old.search.premises under }
        requires cell { cell < length self.old.live.network.cells.kinds }
        requires may { MayMean (kind_at self.old.live.network.cells.kinds cell) (meant_of meant) }
        ensures keeps { Keeps R.value_of self.old self.new }
        ensures fits { OnOk result (stating_limit (state_of self.old) (name_under under.entry)
            (meant_of meant.entry) ≡ None) }
        ensures ok { OnOk result (state_of self.new ≡ stated (state_of self.old)
            (name_under under.entry) cell (with_meant self.old.words (meant_of meant.entry))
            (info_meant self.old.words (meant_of meant.entry))) }
        ensures err { IfErr result (λ e.
            (stating_limit (state_of self.old) (name_under under.entry) (meant_of meant.entry)
            ≡ Some e) ⊎ (e ≡ Memory)) }
        ensures err_same { OnErr result (state_of self.new ≡ state_of self.old) }
        ensures told { HasTold self.old result self.new }
    {
        match self.statement_limit(under) {
            Some(refusal) => return Err(refusal),
            None => {}
        }
        match meant {
            Meant::Known(info) => self.state_said(under, cell, info),
            Meant::Name(symbol) => self.state_symbol(under, cell, symbol),
        }
    }

    /// States that a cell is the symbol with a name, which may be new, where there is room.
    fn state_symbol(&mut self, under: Under, cell: usize, symbol: &str) -> Result<(), Refusal>
        requires sound { IsInOrder R.value_of self.old }
        requires under { IsUnder self.old.search.premises under }
        requires room { statement_limit (state_of self.old) (name_under under) ≡ None }
        requires cell { cell < length self.old.live.network.cells.kinds }
        requires may { (kind_at self.old.live.network.cells.kinds cell).kind ≡ Kind.Symbol }
        ensures keeps { Keeps R.value_of self.old self.new }
        ensures fits { OnOk result (stating_limit (state_of self.old) (name_under under.entry)
            (Name symbol.now) ≡ None) }
        ensures ok { OnOk result (state_of self.new ≡ stated (state_of self.old)
            (name_under under.entry) cell (with_symbol self.old.words symbol.now)
            (Info.Sym (symbol_number self.old.words symbol.now))) }
        ensures err { IfErr result (λ e.
            (stating_limit (state_of self.old) (name_under under.entry) (Name symbol.now) ≡ Some e)
            ⊎ (e ≡ Memory)) }
        ensures err_same { OnErr result (state_of self.new ≡ state_of self.old) }
        ensures told { HasTold self.old result self.new }
    {
        let count = self.words.symbol_count();
        let number = match self.words.add_symbol(symbol) {
            Ok(number) => number,
            Err(refusal) => return Err(refusal),
        };
        match self.state_said(under, cell, Info::Sym(number)) {
            Ok(()) => Ok(()),
            Err(refusal) => {
                self.words.keep_symbols(count);
                Err(refusal)
            }
        }
    }

    /// Why one more statement under this is refused.
    fn statement_limit(&self, under: Under) -> Option<Refusal>
        requires sound { IsInOrder R.value_of self.now }
        requires under { IsUnder self.now.search.premises under }
        ensures { result ≡ statement_limit (state_of self.now) (name_under under.entry) }
    {
        match under {
            Under::New(_) if self.search.premises().len() >= Limit::Premises.most() => {
                Some(Refusal::LimitReached(Limit::Premises))
            }
            _ if self.live.network().data().statement_count() >= Limit::Statements.most() => {
                Some(Refusal::LimitReached(Limit::Statements))
            }
            _ => None,
        }
    }

    /// Makes a statement under this, where there is room.
    pub(crate) fn state_said(
        &mut self,
        under: Under,
        cell: usize,
        info: Info,
    ) -> Result<(), Refusal>
        requires sound { IsInOrder R.value_of self.old }
        requires under { IsUnder self.old.search.premises under }
        requires room { statement_limit (state_of self.old) (name_under under) ≡ None }
        requires cell { cell < length self.old.live.network.cells.kinds }
        requires may { MayMean (kind_at self.old.live.network.cells.kinds cell) (Known info) }
        ensures keeps { Keeps R.value_of self.old self.new }
        ensures words { self.new.words ≡ self.old.words }
        ensures ok { OnOk result (state_of self.new ≡ stated (state_of self.old)
            (name_under under.entry) cell self.old.words info) }
        ensures err { IfErr result (λ e. e ≡ Memory) }
        ensures err_same { OnErr result (state_of self.new ≡ state_of self.old) }
        ensures told { HasTold self.old result self.new }
    {
        match under {
            Under::Nothing => self.state(None, cell, info),
            Under::Known(_, premise) => self.state(Some(premise), cell, info),
            Under::New(name) => self.state_under_new(name, cell, info),
        }
    }

    /// Makes a statement under a premise that there is, or under none.
    fn state(&mut self, premise: Option<Premise>, cell: usize, info: Info) -> Result<(), Refusal>
        requires sound { IsInOrder R.value_of self.old }
        requires cell { cell < length self.old.live.network.cells.kinds }
        requires known { (p : ℕ) → premise ≡ Some p → p < length self.old.search.premises }
        ensures keeps { Keeps R.value_of self.old self.new }
        ensures words { self.new.words ≡ self.old.words }
        ensures fits { OnOk result (state_refusal self.old.live.network.cells cell info ≡ None) }
        ensures ok { OnOk result (state_of self.new
            ≡ record (state_of
            self.old) {
              statements = (state_of self.old).statements
                  ++ record { premise = premise; cell = cell; info = info } ∷ [];
            }) }
        ensures err { IfErr result (λ e.
            (state_refusal self.old.live.network.cells cell info ≡ Some e) ⊎ (e ≡ Memory)) }
        ensures err_same { OnErr result (state_of self.new ≡ state_of self.old) }
        ensures told { HasTold self.old result self.new }
    {
        state(&mut self.live, self.search.worldview(), premise, cell, info)?;
        Ok(())
    }

    /// Makes a statement under a premise with a new name, which is believed, where there is room.
    fn state_under_new(&mut self, name: &str, cell: usize, info: Info) -> Result<(), Refusal>
        requires sound { IsInOrder R.value_of self.old }
        requires told { is_choice self.old.search.premises name.now ≡ false }
        requires cell { cell < length self.old.live.network.cells.kinds }
        requires may { MayMean (kind_at self.old.live.network.cells.kinds cell) (Known info) }
        requires new { premise_number self.old.search.premises name.now ≡ None }
        requires room { telling_limit (state_of self.old) name.now ≡ None }
        ensures keeps { Keeps R.value_of self.old self.new }
        ensures words { self.new.words ≡ self.old.words }
        ensures ok { OnOk result (state_of self.new
            ≡ record (state_of self.old) {
              premises = with_name (state_of self.old).premises name.now;
              statements =
                  (state_of self.old).statements
                  ++ record {
                    premise = Some (length self.old.search.premises);
                    cell = cell;
                    info = info;
                  } ∷ [];
            }) }
        ensures err { IfErr result (λ e. e ≡ Memory) }
        ensures err_same { OnErr result (state_of self.new ≡ state_of self.old) }
        ensures told { HasTold self.old result self.new }
    {
        let premise = match self.search.intern(name) {
            Ok(premise) => premise,
            Err(AllocError) => return Err(Refusal::Memory),
        };
        match state(
            &mut self.live,
            self.search.worldview(),
            Some(premise),
            cell,
            info,
        ) {
            Ok(()) => Ok(()),
            Err(refusal) => {
                self.search.take_back(premise);
                Err(refusal)
            }
        }
    }
}
