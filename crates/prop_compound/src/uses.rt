//! What a use of a name stands for, and why it is refused.
ghost use Rattle.std.specs.Prelude.{◌≡◌, ◌<◌, ◌+◌, ◌==◌, [], not, length, IfOk, IfErr, IfSome};
ghost use Rattle.std.specs.Prelude.{OnOk, Err, None, Some};
ghost use Rattle.std.specs.List.{range_with_len};
ghost use Rattle.prop_procedures.specs.Kept.{stored_of};
ghost use Rattle.prop_vocabulary.specs.Refusing.{IsReason};
ghost use Rattle.prop_procedures.specs.Flats.{param_at};
ghost use Rattle.prop_compound.specs.Definitions.{used_named, cells_wanted};
ghost use Rattle.prop_compound.specs.Expansion.{stands_for, expanded};
ghost use Rattle.prop_compound.specs.Expanding.{size_refusal, expand_refusal};
ghost use Rattle.prop_compound.specs.AtOnce.{refused_at_once};
ghost use Rattle.prop_compound.specs.inner.Flattened.{walk_of, IsAdded, IsPlaceIn};
ghost use Rattle.prop_compound.specs.Flattened.{expansion_of_flat, IsFlatOver};
ghost use Rattle.prop_compound.specs.inner.Kept.{fresh_used, instances_used, fresh_of};
ghost use Rattle.prop_compound.specs.inner.Kept.{instances_of, total_of, IsThere};
ghost use Rattle.prop_compound.specs.Kept.{IsDefinedOver, IsUseThere};

use crate::definition::Used;
use crate::definitions::Definitions;
use crate::expanding::{Frame, expand_definition, placed};
use crate::fitting::fitted;
use crate::walk::Walk;
use prop_lattice::{Limit, Refusal};
use prop_procedures::{Flat, Kinded, Library, Param, Rule};
use prop_vocabulary::Vocabulary;
use std::alloc::{AllocError, Global};

/// A use to be expanded: of what, on which cells, and the place of the parameter that it is given.
#[derive(Drop)]
struct Use {
    used: Used,
    cells: Vec<usize>,
    given: Option<usize>,
}

/// Whether one number is one more than the other.
fn is_one_more(count: usize, than: usize) -> bool
    ensures { result ≡ (count == than + 1) }
{
    0 < count && count - 1 == than
}

/// Puts the parameter first, where there is one. Answers its place.
fn first_place(params: &mut Vec<Param>, given: Option<Param>) -> Result<Option<usize>, AllocError>
    requires { params.old.items ≡ [] }
    ensures param { IfOk result (λ own. param_at params.new.items own ≡ given) }
    ensures there { IfOk result (IsPlaceIn params.new.items) }
{
    match given {
        Some(param) => {
            params.push(param)?;
            Ok(Some(0))
        }
        None => Ok(None),
    }
}

/// The numbers below this one, in order.
fn numbers_below(alloc: Global, count: usize) -> Result<Vec<usize>, AllocError>
    ensures { IfOk result (λ numbers. numbers.items ≡ range_with_len 0 count) }
{
    let mut numbers = Vec::new(alloc);
    for number in 0..count {
        numbers.push(number)?;
    }
    Ok(numbers)
}

impl Definitions {
    /// What the name stands for in a use, looked up among the procedures first.
    pub(crate) fn used<R: Rule + Drop>(&self, library: &Library<R>, name: &str) -> Option<Used>
        ensures used { result ≡ used_named (stored_of R.value_of library.now) self.now name.now }
        ensures there { IfSome result
            (IsThere (length (stored_of R.value_of library.now)) (length self.now.definitions)) }
    {
        match library.find(name) {
            Some(number) => Some(Used::Procedure(number)),
            None => {
                let number = self.find(name)?;
                Some(Used::Definition(number))
            }
        }
    }

    /// Whether a use wants another number of cells.
    pub(crate) fn is_miscounted<R: Rule + Drop>(
        &self,
        library: &Library<R>,
        used: Used,
        count: usize,
    ) -> bool
        requires { IsThere (length (stored_of R.value_of library.now)) (length self.now.definitions)
            used }
        ensures { result ≡ not (count == cells_wanted (stored_of R.value_of library.now) self.now
            used) }
    {
        match used {
            Used::Procedure(number) => !is_one_more(count, library.get(number).ins().len()),
            Used::Definition(number) => self.definitions[number].params != count,
        }
    }

    /// The limit that what the use stands for is over, if it is over one.
    fn size_refusal(&self, used: Used, procedures: usize) -> Option<Refusal>
        requires { IsThere procedures (length self.now.definitions) used }
        ensures { result ≡ size_refusal (fresh_used (total_of fresh_of self.now.definitions) used)
            (instances_used (total_of instances_of self.now.definitions) used) }
    {
        let Used::Definition(number) = used else {
            return None;
        };
        let definition = &self.definitions[number];
        if Limit::Cells.most() < definition.fresh {
            return Some(Refusal::LimitReached(Limit::Cells));
        }
        if Limit::Instances.most() < definition.instances {
            return Some(Refusal::LimitReached(Limit::Instances));
        }
        None
    }

    /// Adds what the use stands for.
    fn add_use(
        &self,
        alloc: Global,
        words: &Vocabulary,
        this: Use,
        walk: &mut Walk,
    ) -> Result<(), AllocError>
        requires there { IsUseThere self.now.definitions this.used (length this.cells.items) }
        requires given { IsPlaceIn walk.old.params.items this.given }
        requires empty { walk.old.instances.items ≡ [] }
        ensures { OnOk result (IsAdded words.now self.now.definitions this.used this.cells.items
            this.given walk.old walk.new) }
    {
        let Use { used, cells, given } = this;
        match used {
            Used::Procedure(number) => {
                walk.instances.push(placed(number, given, cells))?;
                Ok(())
            }
            Used::Definition(number) => {
                let frame = Frame {
                    number,
                    next: 0,
                    cells,
                    given,
                };
                expand_definition(alloc, &self.definitions, words, frame, walk)
            }
        }
    }

    /// What the use stands for on cells of these kinds and given this.
    fn walk(
        &self,
        alloc: Global,
        words: &Vocabulary,
        used: Used,
        cells: Vec<Kinded>,
        given: Option<Param>,
    ) -> Result<Walk, AllocError>
        requires { IsUseThere self.now.definitions used (length cells.items) }
        ensures walk { IfOk result (λ walk.
            walk_of walk ≡ stands_for words.now self.now.definitions used cells.items given) }
    {
        let spare = match used {
            Used::Procedure(_) => false,
            Used::Definition(number) => self.definitions[number].is_spare(given.is_some()),
        };
        let numbers = numbers_below(alloc, cells.len())?;
        let mut params = Vec::new(alloc);
        let own = first_place(&mut params, given)?;
        let mut walk = Walk {
            kinds: cells,
            params,
            instances: Vec::new(alloc),
            spare,
        };
        let this = Use {
            used,
            cells: numbers,
            given: own,
        };
        match self.add_use(alloc, words, this, &mut walk) {
            Ok(()) => Ok(walk),
            Err(AllocError) => {
                drop(walk);
                Err(AllocError)
            }
        }
    }

    /// What a use of the name stands for, on cells of these kinds and given this: the kinds of its
    /// fresh cells, and its instances of procedures. Its size is known before anything is made.
    ///
    /// Refused with 11 where the name is neither a procedure's nor a definition's, with 12 for the
    /// count of cells, with 16 for more than 100,000 fresh cells or 200,000 instances, with 13
    /// where the kinds of some instance's cells do not fit, with 14 where an instance or a
    /// definition does not take what it is given, and with 90, which never stands in the place of
    /// 11, 12 or 16.
    pub fn expand<R: Rule + Drop>(
        &self,
        alloc: Global,
        library: &Library<R>,
        words: &Vocabulary,
        name: &str,
        cells: Vec<Kinded>,
        given: Option<Param>,
    ) -> Result<Flat, Refusal>
        requires over { IsDefinedOver (stored_of R.value_of library.now) self.now }
        ensures fits { OnOk result (expand_refusal (stored_of R.value_of library.now) words.now
            self.now name.now cells.items given ≡ None) }
        ensures ok { IfOk result (λ flat.
            expansion_of_flat cells.items flat ≡ expanded (stored_of R.value_of library.now)
            words.now self.now name.now cells.items given) }
        ensures safe { IfOk result (λ flat.
            IsFlatOver (stored_of R.value_of library.now) (length cells.items) flat) }
        ensures err { IfErr result (IsReason
            (expand_refusal (stored_of R.value_of library.now) words.now self.now name.now
            cells.items given)) }
        ensures at_once { IfSome (refused_at_once (stored_of R.value_of library.now) words.now
            self.now name.now cells.items given) (λ e. result ≡ Err e) }
    {
        let _ = &self.names;
        let Some(used) = self.used(library, name) else {
            return Err(Refusal::NoSuchProcedure);
        };
        let count = cells.len();
        if self.is_miscounted(library, used, count) {
            return Err(Refusal::WrongCount);
        }
        if let Some(refusal) = self.size_refusal(used, library.len()) {
            return Err(refusal);
        }
        let Ok(walk) = self.walk(alloc, words, used, cells, given) else {
            return Err(Refusal::Memory);
        };
        fitted(alloc, library, walk, count)
    }
}
