//! What a use stands for, while it is expanded.
ghost use Rattle.std.specs.Prelude.{◌≡◌, ◌<◌, ◌≤◌, ◌++◌, List, length, option_copied, IfOk, OnOk};
ghost use Rattle.prop_procedures.specs.declared.shape.Param.{Param as Parameter};
ghost use Rattle.prop_procedures.specs.Fitting.{kind_at};
ghost use Rattle.prop_procedures.specs.Flats.{param_at};
ghost use Rattle.prop_compound.specs.Expansion.{param_passed};
ghost use Rattle.prop_compound.specs.inner.Flattened.{IsPlaceIn, IsBehind};

use crate::definition::Passing;
use prop_procedures::fitting::span_kinded;
use prop_procedures::{Flat, Kinded, Param, Placed};
use prop_vocabulary::Vocabulary;
use std::alloc::{AllocError, Global};

/// The kinds of the given cells and after them of the fresh ones, the parameters and the instances
/// so far, and whether a definition is given a parameter that it does not take.
#[derive(Drop)]
pub(crate) struct Walk {
    pub(crate) kinds: Vec<Kinded>,
    pub(crate) params: Vec<Param>,
    pub(crate) instances: Vec<Placed>,
    pub(crate) spare: bool,
}

/// The kind of a cell, that of numbers where there is no such cell.
pub(crate) fn kind_at(kinds: &[Kinded], cell: usize) -> Kinded
    ensures { result ≡ kind_at kinds.now cell }
{
    match kinds.get(cell) {
        Some(kind) => *kind,
        None => span_kinded(),
    }
}

/// The parameter at the place, where there is a place.
pub(crate) fn param_at(params: &[Param], place: Option<usize>) -> Option<&Param>
    ensures { option_copied result ≡ param_at params.now place }
{
    match place {
        Some(number) => params.get(number),
        None => None,
    }
}

/// Puts what a step passes last among the parameters where the step says it. Answers its place,
/// where something is passed.
pub(crate) fn param_place(
    alloc: Global,
    words: &Vocabulary,
    params: &mut Vec<Param>,
    own: Option<usize>,
    passing: Passing,
) -> Result<Option<usize>, AllocError>
    requires { IsPlaceIn params.old.items own }
    ensures param { IfOk result (λ p.
        param_at params.new.items p ≡ param_passed words.now (param_at params.old.items own)
        passing) }
    ensures there { IfOk result (IsPlaceIn params.new.items) }
    ensures more { OnOk result ((more : List Parameter)
        × (params.new.items ≡ params.old.items ++ more)) }
{
    let param = match passing {
        Passing::Nothing => return Ok(None),
        Passing::Own => return Ok(own),
        Passing::Scale(scale) => Param::Scale(scale),
        Passing::Relation(number) => match words.relation_at(number) {
            Some(rows) => Param::Rows(rows.copy(alloc)?),
            None => return Ok(None),
        },
    };
    let place = params.len();
    params.push(param)?;
    Ok(Some(place))
}

/// What the walk came upon behind the first `count` cells.
pub(crate) fn flat_behind(alloc: Global, walk: Walk, count: usize) -> Result<Flat, AllocError>
    requires { count ≤ length walk.kinds.items }
    ensures { IfOk result (IsBehind walk count) }
{
    let Walk {
        kinds,
        params,
        instances,
        spare: _,
    } = walk;
    let fresh = Vec::from_slice(alloc, &kinds[count..])?;
    Ok(Flat {
        fresh,
        params,
        instances,
    })
}
