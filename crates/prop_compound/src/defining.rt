//! Making a definition.
ghost use Rattle.std.specs.Prelude.{◌≡◌, ◌≤◌, ◌++◌, ◌∷◌, [], false, All, length, map, take, drop};
ghost use Rattle.std.specs.Prelude.{IfOk, IfErr, IfSome, OnOk, OnErr, Err, None, Some, nat_le};
ghost use Rattle.std.specs.List.{flat_map};
ghost use Rattle.prop_refusals.specs.Refusals.{first_of, most, when};
ghost use Rattle.prop_procedures.specs.Kept.{stored_of};
ghost use Rattle.prop_vocabulary.specs.Names.{number_in};
ghost use Rattle.prop_vocabulary.specs.Refusing.{IsReason};
ghost use Rattle.prop_language.specs.Said.{words as words_of, step_of};
ghost use Rattle.prop_compound.specs.Definitions.{used_named};
ghost use Rattle.prop_compound.specs.Defining.{locals_of, scope_of, definition_of, with_definition};
ghost use Rattle.prop_compound.specs.Defining.{is_name_taken, words_refusals, define_refusal};
ghost use Rattle.prop_compound.specs.inner.Defining.{IsNameReason, steps_refusal};
ghost use Rattle.prop_compound.specs.Kinds.{IsSized, IsLocalOf, AreLocalsOf};
ghost use Rattle.prop_compound.specs.Kept.{bare, IsUseOver, IsDefinedOver};
ghost use Rattle.prop_compound.specs.inner.Kept.{IsKeptNext};

use crate::counting::counted;
use crate::definition::KeptDefinition;
use crate::definitions::Definitions;
use crate::resolving::{has_domain_missing, has_relation_missing};
use crate::scope::{is_cell_missing, push_names};
use prop_language::Step;
use prop_lattice::{Limit, Refusal};
use prop_procedures::{Library, Rule};
use prop_vocabulary::{Names, Vocabulary};
use std::alloc::{AllocError, Global};

/// A definition as it is said: its name, the names of its parameters, and its steps.
#[derive(Drop)]
struct Said<'a> {
    name: &'a str,
    params: &'a [&'a str],
    steps: &'a [Step<'a>],
}

/// Why steps may not stand for their words' sake, where the first so many names of the scope are
/// the parameters: 8, 19 or 9.
fn words_refusal(
    words: &Vocabulary,
    scope: &Names,
    params: usize,
    steps: &[Step],
) -> Option<Refusal>
    requires count { params ≤ length scope.now }
    requires locals { drop params scope.now ≡ flat_map locals_of (map step_of steps.now) }
    ensures { result ≡ first_of (words_refusals words.now (take params scope.now)
        (map step_of steps.now)) }
{
    if has_domain_missing(words, steps) {
        return Some(Refusal::NoSuchDomain);
    }
    if has_relation_missing(words, steps) {
        return Some(Refusal::NoSuchRelation);
    }
    if is_cell_missing(scope, params, steps) {
        return Some(Refusal::NoSuchCell);
    }
    None
}

impl Definitions {
    /// Why steps may not be defined that use what isn't there, or another number of cells than
    /// wanted, or for the count of definitions: 11, 12 or 16.
    fn uses_refusal(&self, is_unknown: bool, is_count_wrong: bool) -> Option<Refusal>
        ensures { result ≡ first_of (when Refusal.NoSuchProcedure is_unknown
            ∷ when Refusal.WrongCount is_count_wrong
            ∷ when (Refusal.LimitReached Limit.Definitions)
            (nat_le (most Limit.Definitions) (length self.now.definitions)) ∷ []) }
    {
        if is_unknown {
            return Some(Refusal::NoSuchProcedure);
        }
        if is_count_wrong {
            return Some(Refusal::WrongCount);
        }
        if self.len() >= Limit::Definitions.most() {
            return Some(Refusal::LimitReached(Limit::Definitions));
        }
        None
    }

    /// Puts the parameters and locals by name into an empty scope, `NameTaken` where a procedure or
    /// a definition has the name or one of them would stand twice.
    fn name_all<R: Rule + Drop>(
        &self,
        alloc: Global,
        library: &Library<R>,
        scope: &mut Names,
        said: &Said,
    ) -> Result<(), Refusal>
        requires { scope.old ≡ [] }
        ensures scope { OnOk result (scope.new ≡ scope_of (words_of said.now.params.now)
            (map step_of said.now.steps.now)) }
        ensures new { OnOk result (is_name_taken (stored_of R.value_of library.now) self.now
            said.now.name.now (words_of said.now.params.now)
            (map step_of said.now.steps.now) ≡ false) }
        ensures why { IfErr result (IsNameReason
            (is_name_taken (stored_of R.value_of library.now) self.now said.now.name.now
            (words_of said.now.params.now) (map step_of said.now.steps.now))) }
        ensures at_once { IfSome (used_named (stored_of R.value_of library.now) self.now
            said.now.name.now) (λ _. result ≡ Err Refusal.NameTaken) }
    {
        if library.find(said.name).is_some() || self.find(said.name).is_some() {
            return Err(Refusal::NameTaken);
        }
        push_names(alloc, scope, said.params, said.steps)
    }

    /// The definition by numbers, with what is known of its uses, or why its steps may not stand in
    /// this scope: 8, 19, 9, 11, 12 or 16, and 90.
    fn resolved<R: Rule + Drop>(
        &self,
        alloc: Global,
        library: &Library<R>,
        words: &Vocabulary,
        scope: &Names,
        said: &Said,
    ) -> Result<KeptDefinition, Refusal>
        requires { scope.now ≡ scope_of (words_of said.now.params.now)
            (map step_of said.now.steps.now) }
        ensures definition { IfOk result
            (λ k. bare k ≡ definition_of (stored_of R.value_of library.now) words.now self.now
            (words_of said.now.params.now) (map step_of said.now.steps.now)) }
        ensures kept { IfOk result (IsKeptNext self.now.definitions) }
        ensures over { IfOk result (λ k.
            All (IsUseOver (stored_of R.value_of library.now)) k.steps.items) }
        ensures locals { IfOk result (λ k. All (IsLocalOf (IsSized words.now)) k.steps.items) }
        ensures fits { OnOk result (steps_refusal (stored_of R.value_of library.now) words.now
            self.now (words_of said.now.params.now) (map step_of said.now.steps.now) ≡ None) }
        ensures err { IfErr result (IsReason
            (steps_refusal (stored_of R.value_of library.now) words.now self.now
            (words_of said.now.params.now) (map step_of said.now.steps.now))) }
    {
        if let Some(refusal) = words_refusal(words, scope, said.params.len(), said.steps) {
            return Err(refusal);
        }
        let Ok(all) = self.all_numbered(alloc, library, words, scope, said.steps) else {
            return Err(Refusal::Memory);
        };
        if let Some(refusal) = self.uses_refusal(all.is_unknown, all.is_count_wrong) {
            return Err(refusal);
        }
        counted(alloc, &self.definitions, said.params.len(), all.steps)
    }

    /// The definition by numbers, with what is known of its uses, or why it may not be made, where
    /// this scope is empty.
    fn made_in<R: Rule + Drop>(
        &self,
        alloc: Global,
        library: &Library<R>,
        words: &Vocabulary,
        scope: &mut Names,
        said: &Said,
    ) -> Result<KeptDefinition, Refusal>
        requires { scope.old ≡ [] }
        ensures definition { IfOk result
            (λ k. bare k ≡ definition_of (stored_of R.value_of library.now) words.now self.now
            (words_of said.now.params.now) (map step_of said.now.steps.now)) }
        ensures kept { IfOk result (IsKeptNext self.now.definitions) }
        ensures over { IfOk result (λ k.
            All (IsUseOver (stored_of R.value_of library.now)) k.steps.items) }
        ensures locals { IfOk result (λ k. All (IsLocalOf (IsSized words.now)) k.steps.items) }
        ensures fits { OnOk result (define_refusal (stored_of R.value_of library.now) words.now
            self.now said.now.name.now (words_of said.now.params.now)
            (map step_of said.now.steps.now) ≡ None) }
        ensures err { IfErr result (IsReason
            (define_refusal (stored_of R.value_of library.now) words.now self.now said.now.name.now
            (words_of said.now.params.now) (map step_of said.now.steps.now))) }
        ensures at_once { IfSome (used_named (stored_of R.value_of library.now) self.now
            said.now.name.now) (λ _. result ≡ Err Refusal.NameTaken) }
    {
        self.name_all(alloc, library, scope, said)?;
        self.resolved(alloc, library, words, scope, said)
    }

    /// The definition by numbers, with what is known of its uses, or why it may not be made.
    fn made<R: Rule + Drop>(
        &self,
        alloc: Global,
        library: &Library<R>,
        words: &Vocabulary,
        said: &Said,
    ) -> Result<KeptDefinition, Refusal>
        ensures definition { IfOk result
            (λ k. bare k ≡ definition_of (stored_of R.value_of library.now) words.now self.now
            (words_of said.now.params.now) (map step_of said.now.steps.now)) }
        ensures kept { IfOk result (IsKeptNext self.now.definitions) }
        ensures over { IfOk result (λ k.
            All (IsUseOver (stored_of R.value_of library.now)) k.steps.items) }
        ensures locals { IfOk result (λ k. All (IsLocalOf (IsSized words.now)) k.steps.items) }
        ensures fits { OnOk result (define_refusal (stored_of R.value_of library.now) words.now
            self.now said.now.name.now (words_of said.now.params.now)
            (map step_of said.now.steps.now) ≡ None) }
        ensures err { IfErr result (IsReason
            (define_refusal (stored_of R.value_of library.now) words.now self.now said.now.name.now
            (words_of said.now.params.now) (map step_of said.now.steps.now))) }
        ensures at_once { IfSome (used_named (stored_of R.value_of library.now) self.now
            said.now.name.now) (λ _. result ≡ Err Refusal.NameTaken) }
    {
        let mut scope = Names::new(alloc);
        self.made_in(alloc, library, words, &mut scope, said)
    }

    /// One definition more. After an error, which is 90, nothing has changed.
    fn push(&mut self, alloc: Global, name: &str, definition: KeptDefinition) -> Result<(), Refusal>
        requires new { number_in self.old.names name.now ≡ None }
        requires kept { IsKeptNext self.old.definitions definition }
        ensures ok { OnOk result (self.new
            ≡ record {
              names = self.old.names ++ name.now ∷ [];
              definitions = self.old.definitions ++ bare definition ∷ [];
            }) }
        ensures err { IfErr result (λ e. e ≡ Refusal.Memory) }
        ensures err_same { OnErr result (self.new ≡ self.old) }
    {
        let Ok(()) = self.definitions.push(definition) else {
            return Err(Refusal::Memory);
        };
        match self.names.push(alloc, name) {
            Ok(()) => Ok(()),
            Err(AllocError) => {
                drop(self.definitions.pop());
                Err(Refusal::Memory)
            }
        }
    }

    /// Defines a compound: the steps, in order, are what a use of the name on as many cells as
    /// there are parameters stands for.
    ///
    /// Refused with 7 where a procedure or a definition has the name or a parameter or local stands
    /// twice, with 8 where the kind of a local names no domain, with 19 where there is no such
    /// relation, with 9 where a step names a cell that is neither a parameter nor an earlier local,
    /// with 11 where it uses what is neither a procedure nor a definition that is there already,
    /// with 12 where it does so on another number of cells, with 16 where there are 1,024
    /// definitions, and with 90, which never stands in the place of 7 for a name that a procedure
    /// or a definition has. A refusal changes nothing.
    pub fn define<R: Rule + Drop>(
        &mut self,
        alloc: Global,
        library: &Library<R>,
        words: &Vocabulary,
        name: &str,
        params: &[&str],
        steps: &[Step],
    ) -> Result<(), Refusal>
        requires over { IsDefinedOver (stored_of R.value_of library.now) self.old }
        ensures over { IsDefinedOver (stored_of R.value_of library.now) self.new }
        ensures locals { AreLocalsOf (IsSized words.now) self.old
            → AreLocalsOf (IsSized words.now) self.new }
        ensures fits { OnOk result (define_refusal (stored_of R.value_of library.now) words.now
            self.old name.now (words_of params.now) (map step_of steps.now) ≡ None) }
        ensures ok { OnOk result (self.new ≡ with_definition (stored_of R.value_of library.now)
            words.now self.old name.now (words_of params.now) (map step_of steps.now)) }
        ensures err { IfErr result (IsReason
            (define_refusal (stored_of R.value_of library.now) words.now self.old name.now
            (words_of params.now) (map step_of steps.now))) }
        ensures err_same { OnErr result (self.new ≡ self.old) }
        ensures at_once { IfSome (used_named (stored_of R.value_of library.now) self.old name.now)
            (λ _. result ≡ Err Refusal.NameTaken) }
    {
        let said = Said {
            name,
            params,
            steps,
        };
        let definition = self.made(alloc, library, words, &said)?;
        self.push(alloc, name, definition)
    }
}
