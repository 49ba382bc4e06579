//! Whether what a term becomes fits the cells that it is posted to, as it is tested of what a line
//! attaches and states.
ghost use Rattle.std.specs.Prelude.{◌≡◌, ◌≤◌, IsTrue, All, length};
ghost use Rattle.prop_cells.specs.Refusing.{may_be_stated};
ghost use Rattle.prop_compound.specs.Kinds.{IsSized};
ghost use Rattle.prop_demands.specs.inner.Fitting.{AllFits};

use crate::forms::{Form, form_of, is_taken};
use crate::reading::Glossary;
use prop_cells::Cells;
use prop_lattice::{Info, Kind};
use prop_meaning::{Act, Inputs, Posted};
use prop_procedures::fitting::are_right;
use prop_procedures::{Kinded, Shape};
use prop_vocabulary::Vocabulary;

/// Three inputs, by their shapes and places.
type Three = ((Shape, usize), (Shape, usize), (Shape, usize));

/// Given cells and fresh ones behind them.
#[derive(Clone, Copy)]
pub(crate) struct Board<'a> {
    pub(crate) cells: &'a Cells,
    pub(crate) fresh: &'a [Kinded],
}

/// Whether an information may be stated at a cell of a kind: it is of the kind, and no
/// contradiction.
fn may_be_stated(kind: Kinded, info: Info) -> bool
    ensures { result ≡ may_be_stated kind.kind kind.size info }
{
    !matches!(info, Info::Contradiction) && info.is_of(kind.kind, kind.size.min(64))
}

/// Whether the kind is of a domain that is there, one of the first so many, and of its size.
fn is_sized(words: &Vocabulary, domains: usize, kinded: &Kinded) -> bool
    requires { domains ≤ length words.now.domains }
    ensures { IsTrue result → IsSized words.now kinded.now }
{
    match kinded.kind {
        Kind::Set(domain) => {
            usize::from(domain) < domains && words.domain(domain).size() == kinded.size
        }
        Kind::Span | Kind::Symbol => kinded.size == 0,
    }
}

/// Whether all kinds are.
fn are_sized(words: &Vocabulary, domains: usize, fresh: &[Kinded]) -> bool
    requires { domains ≤ length words.now.domains }
    ensures { IsTrue result → All (IsSized words.now) fresh.now }
{
    for kinded in fresh {
        if !is_sized(words, domains, kinded) {
            return false;
        }
    }
    true
}

impl Board<'_> {
    ghost use Rattle.std.specs.Prelude.{◌≡◌, ◌<◌, ◌++◌, ◌∷◌, [], ℕ, IsTrue, None, All, length, map};
    ghost use Rattle.std.specs.Prelude.{slice_get, zip};
    ghost use Rattle.prop_lattice.specs.declared.info.Info.{Info as Infos};
    ghost use Rattle.prop_procedures.specs.Fitting.{kind_at};
    ghost use Rattle.prop_procedures.specs.Stored.{are_right};
    ghost use Rattle.prop_meaning.specs.Acts.{inputs_of};
    ghost use Rattle.prop_demands.specs.inner.Fitting.{Admits, Fits, IsRight};

    /// The kind of the cell at a place.
    fn kind(&self, place: usize) -> Option<Kinded>
        ensures { result ≡ slice_get (self.now.cells.now.kinds ++ self.now.fresh.now) place }
    {
        let count = self.cells.len();
        if place < count {
            return Some(self.cells.kind(place));
        }
        self.fresh.get(place - count).copied()
    }

    /// Whether a procedure of this form may stand between the cells at these places.
    fn is_right(&self, form: Form, inputs: Inputs, output: usize) -> bool
        ensures { IsTrue result → IsRight (self.now.cells.now.kinds ++ self.now.fresh.now)
            form.ins.now form.out form.need (inputs_of inputs) output }
    {
        match (form.ins, inputs) {
            ([s], Inputs::One(x)) => self.is_right_one(form, (*s, x), output),
            ([s, t], Inputs::Two(x, y)) => self.is_right_two(form, (*s, x), (*t, y), output),
            ([s, t, u], Inputs::Three(x, y, z)) => {
                self.is_right_three(form, ((*s, x), (*t, y), (*u, z)), output)
            }
            _ => false,
        }
    }

    /// The same where it has one input, of this shape.
    fn is_right_one(&self, form: Form, x: (Shape, usize), output: usize) -> bool
        ensures { IsTrue result → form.ins.now ≡ x.0 ∷ []
            → IsRight (self.now.cells.now.kinds ++ self.now.fresh.now) form.ins.now form.out
            form.need (x.1 ∷ []) output }
    {
        let Some(first) = self.kind(x.1) else {
            return false;
        };
        let Some(last) = self.kind(output) else {
            return false;
        };
        are_right(form.need, None, &[(x.0, first), (form.out, last)])
    }

    /// The same where it has two.
    fn is_right_two(&self, form: Form, x: (Shape, usize), y: (Shape, usize), output: usize) -> bool
        ensures { IsTrue result → form.ins.now ≡ x.0 ∷ y.0 ∷ []
            → IsRight (self.now.cells.now.kinds ++ self.now.fresh.now) form.ins.now form.out
            form.need (x.1 ∷ y.1 ∷ []) output }
    {
        let Some(first) = self.kind(x.1) else {
            return false;
        };
        let Some(second) = self.kind(y.1) else {
            return false;
        };
        let Some(last) = self.kind(output) else {
            return false;
        };
        are_right(
            form.need,
            None,
            &[(x.0, first), (y.0, second), (form.out, last)],
        )
    }

    /// The same where it has three.
    fn is_right_three(&self, form: Form, inputs: Three, output: usize) -> bool
        ensures { IsTrue result
            → form.ins.now ≡ inputs.0.0 ∷ inputs.1.0 ∷ inputs.2.0 ∷ []
            → IsRight (self.now.cells.now.kinds ++ self.now.fresh.now) form.ins.now form.out
            form.need (inputs.0.1 ∷ inputs.1.1 ∷ inputs.2.1 ∷ []) output }
    {
        let (x, y, z) = inputs;
        let Some(first) = self.kind(x.1) else {
            return false;
        };
        let Some(second) = self.kind(y.1) else {
            return false;
        };
        let Some(third) = self.kind(z.1) else {
            return false;
        };
        let Some(last) = self.kind(output) else {
            return false;
        };
        are_right(
            form.need,
            None,
            &[(x.0, first), (y.0, second), (z.0, third), (form.out, last)],
        )
    }

    /// Whether the instance may be made.
    fn takes(&self, act: &Act) -> bool
        ensures { IsTrue result → Fits (self.now.cells.now.kinds ++ self.now.fresh.now) act.now }
    {
        is_taken(act.rule) && self.is_right(form_of(act.rule), act.inputs, act.output)
    }

    /// Whether all may be made.
    fn takes_all(&self, acts: &[Act]) -> bool
        ensures { IsTrue result
            → All (Fits (self.now.cells.now.kinds ++ self.now.fresh.now)) acts.now }
    {
        for act in acts {
            if !self.takes(act) {
                return false;
            }
        }
        true
    }

    /// Whether this may be stated at a place.
    fn admits(&self, place: usize, info: Info) -> bool
        ensures { IsTrue result
            → Admits (self.now.cells.now.kinds ++ self.now.fresh.now) place info }
    {
        match self.kind(place) {
            Some(kinded) => may_be_stated(kinded, info),
            None => false,
        }
    }

    /// Whether all may be stated.
    fn admits_all(&self, constants: &[(usize, Info)]) -> bool
        ensures { IsTrue result → All (λ (c : ℕ × Infos).
            Admits (self.now.cells.now.kinds ++ self.now.fresh.now) c.0 c.1) constants.now }
    {
        for constant in constants {
            if !self.admits(constant.0, constant.1) {
                return false;
            }
        }
        true
    }
}

/// Whether what was posted fits what is there.
pub(crate) fn fits(glossary: &Glossary<'_>, posted: &Posted) -> bool
    ensures { IsTrue result
        → AllFits glossary.now.words.now glossary.now.cells.now.kinds posted.now }
{
    let board = Board {
        cells: glossary.cells,
        fresh: &posted.fresh,
    };
    are_sized(glossary.words, glossary.domains, &posted.fresh)
        && board.takes_all(&posted.acts)
        && board.admits_all(&posted.constants)
        && board.admits(posted.result, Info::from_bits(1))
}
