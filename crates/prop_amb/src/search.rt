//! Where the search for the first consistent list of choices stands, and what it has learned.
ghost use Rattle.std.specs.Prelude.{◌≡◌, ◌<◌, ◌↔◌, ◌⊎◌, ℕ, List, [], Contains, IsTrue, None, Ok};
ghost use Rattle.std.specs.Prelude.{◌∷◌, false, length, slice_get, Some, IfOk, IfSome, OnOk, OnErr};
ghost use Rattle.prop_numbers.specs.Sets.{set_of, union, is_within, IsPart, IsSame};
ghost use Rattle.prop_premises.specs.declared.choice.Choice.{Choice};
ghost use Rattle.prop_premises.specs.ChoiceLists.{hypothetical, worldview};
ghost use Rattle.prop_cells.specs.Problems.{Problem};
ghost use Rattle.prop_nogoods.specs.Stores.{has_part, NoneEndsBelow, AddsSet};
ghost use Rattle.prop_amb.specs.Refuted.{IsNogood};
ghost use Rattle.prop_amb.specs.Search.{Stand, no_stand, users_of, choices_in, IsStand, IsSearch};
ghost use Rattle.prop_amb.specs.Moving.{deepened};
ghost use Rattle.prop_amb.specs.Going.{MaySkip};
ghost use Rattle.prop_amb.specs.inner.Ahead.{IsAhead};
ghost use Rattle.prop_amb.specs.inner.Refuting.{IsNext};

use crate::reasons::Reasons;
use prop_nogoods::Store;
use prop_premises::{Premise, PremiseSet, Premises, Worldview};
use std::alloc::{AllocError, Global};
use std::marker::Model;
use std::mem::replace;

/// The premises, the side on which each choice stands, of how many choices it is believed, why each
/// left the sides before, the nogoods, and what is believed.
#[derive(Drop)]
pub struct Search {
    pub(crate) premises: Premises,
    pub(crate) list: Vec<u8>,
    pub(crate) level: usize,
    pub(crate) reasons: Vec<Reasons>,
    pub(crate) store: Store,
    pub(crate) worldview: Worldview,
    /// Each noted nogood that is believed ends with this premise or a later one, or has none.
    pub(crate) from: Premise,
    /// What would be believed with the side of one choice more, where that was looked at and no
    /// noted nogood would be.
    pub(crate) ahead: Option<Worldview>,
}

impl Model for Search {
    ghost Value = { Stand };

    ghost view = { λ s. record {
      premises = s.premises;
      list = s.list.items;
      level = s.level;
      reasons = s.reasons.items;
      listed = s.store;
      worldview = s.worldview;
    } };

    ghost invariant = { λ s. IsStand
        (record {
          premises = s.premises;
          list = s.list.items;
          level = s.level;
          reasons = s.reasons.items;
          listed = s.store;
          worldview = s.worldview;
        })
        × NoneEndsBelow s.store (set_of s.worldview) s.from
        × IfSome s.ahead (IsAhead (record {
          premises = s.premises;
          list = s.list.items;
          level = s.level;
          reasons = s.reasons.items;
          listed = s.store;
          worldview = s.worldview;
        })) };
}

impl Search {
    /// No premises, no choices and no nogoods. It takes no memory.
    pub fn new(alloc: Global) -> Search
        ensures { result ≡ no_stand }
    {
        Search {
            premises: Premises::new(alloc),
            list: Vec::new(alloc),
            level: 0,
            reasons: Vec::new(alloc),
            store: Store::new(alloc),
            worldview: Worldview::empty(alloc),
            from: 0,
            ahead: None,
        }
    }

    /// The premises and the choices.
    pub fn premises(&self) -> &Premises
        ensures { result.now ≡ self.now.premises }
    {
        &self.premises
    }

    /// The side on which each choice stands, from 1, in order of declaration.
    pub fn list(&self) -> &[u8]
        ensures { result.now ≡ self.now.list }
    {
        &self.list
    }

    /// The reasons against the sides that each choice has left, in order of declaration.
    pub fn reasons(&self) -> &[Reasons]
        ensures { result.now ≡ self.now.reasons }
    {
        &self.reasons
    }

    /// Of how many choices the side is believed.
    pub(crate) fn level(&self) -> usize
        ensures { result ≡ self.now.level }
    {
        self.level
    }

    /// The nogoods that were noted.
    pub fn nogoods(&self) -> &Store
        ensures { result.now ≡ self.now.listed }
    {
        &self.store
    }

    /// What is believed: the believed premises of the user's and, of the first choices, those below
    /// the level, the sides on which they stand.
    pub fn worldview(&self) -> &Worldview
        ensures same { result.now ≡ self.now.worldview }
        ensures stand { IsStand self.now }
    {
        &self.worldview
    }

    /// Whether the side of each choice is believed.
    pub fn is_whole(&self) -> bool
        ensures whole { IsTrue result ↔ (self.now.level ≡ length self.now.list) }
        ensures stand { IsStand self.now }
    {
        self.level == self.list.len()
    }

    /// What would be believed if the side of each choice were: the worldview of the whole list.
    pub fn whole(&self) -> Result<Worldview, AllocError>
        ensures { IfOk result (λ w. IsSame (set_of w)
            (worldview (users_of self.now) (choices_in self.now) self.now.list)) }
    {
        self.premises.worldview(&self.list)
    }

    /// The side of one choice more is believed, where no noted nogood is. Answers the worldview of
    /// before. After want of memory nothing has changed.
    pub(crate) fn deepen(&mut self) -> Result<Worldview, AllocError>
        requires left { self.old.level < length self.old.list }
        requires unblocked { has_part self.old.listed (set_of self.old.worldview) ≡ false }
        ensures before { IfOk result (λ w. w ≡ self.old.worldview) }
        ensures ok { OnOk result (self.new
            ≡ record (deepened self.old) { worldview = self.new.worldview }) }
        ensures more { IsPart (set_of self.old.worldview) (set_of self.new.worldview) }
        ensures err { OnErr result (self.new ≡ self.old) }
        ensures search { (problem : Problem) → IsSearch problem self.old
            → IsSearch problem self.new }
    {
        let (deeper, from) = self.deeper()?;
        self.level += 1;
        self.from = from;
        self.ahead = None;
        Ok(replace(&mut self.worldview, deeper))
    }

    /// What is believed with the side of one choice more, where no noted nogood is, and a premise
    /// below which none ends that is believed then. It isn't made again where it was looked at.
    #[inline]
    fn deeper(&mut self) -> Result<(Worldview, Premise), AllocError>
        requires left { self.old.level < length self.old.list }
        requires unblocked { has_part self.old.listed (set_of self.old.worldview) ≡ false }
        ensures same { self.new ≡ self.old }
        ensures more { IfOk result (λ d. IsPart (set_of self.old.worldview) (set_of d.0)) }
        ensures stand { IfOk result
            (λ d. IsStand (record (deepened self.old) { worldview = d.0 })) }
        ensures from { IfOk result (λ d. NoneEndsBelow self.old.listed (set_of d.0) d.1) }
    {
        if let Some(ahead) = replace(&mut self.ahead, None) {
            return Ok((ahead, Premise::MAX));
        }
        let side = self.side_at(self.level);
        let deeper = with_premise(&self.worldview, side)?;
        Ok((deeper, side))
    }

    /// The side on which the choice at a place stands.
    #[inline]
    pub(crate) fn side_at(&self, place: usize) -> Premise
        requires { place < length self.now.list }
        ensures side { (choice : Choice) (side : ℕ)
            → slice_get (choices_in self.now) place ≡ Some choice
            → slice_get self.now.list place ≡ Some side → result ≡ hypothetical choice side }
    {
        let choice = self.premises.choices()[place];
        choice.first + Premise::from(self.list[place] - 1)
    }

    /// A noted nogood of which every premise would be believed if the side of one choice more were,
    /// where none is believed now. None only where there is no such choice or nogood, or the side
    /// is the choice's last. Where there is no nogood, what would be believed is kept for `deepen`.
    pub(crate) fn refuted_next(&mut self) -> Result<Option<PremiseSet>, AllocError>
        requires { has_part self.old.listed (set_of self.old.worldview) ≡ false }
        ensures same { self.new ≡ self.old }
        ensures next { IfOk result (λ found. IfSome found (IsNext self.old)) }
        ensures none { result ≡ Ok None → (nogood : List ℕ) → MaySkip self.old nogood → ⊥ }
    {
        if self.ahead.is_some() || self.is_whole() {
            return Ok(None);
        }
        let choice = self.premises.choices()[self.level];
        if self.list[self.level] >= choice.sides {
            return Ok(None);
        }
        let side = self.side_at(self.level);
        let deeper = with_premise(&self.worldview, side)?;
        if let Some(nogood) = self.store.blocks_from(&deeper, side) {
            return Ok(Some(nogood.copy()?));
        }
        self.ahead = Some(deeper);
        Ok(None)
    }

    /// Notes a nogood, of which no part was noted. After want of memory nothing has changed.
    pub(crate) fn note(&mut self, nogood: PremiseSet) -> Result<(), AllocError>
        requires { has_part self.old.listed (set_of nogood) ≡ false }
        ensures only { self.new ≡ record self.old { listed = self.new.listed } }
        ensures adds { OnOk result (AddsSet self.old.listed self.new.listed nogood) }
        ensures stand { IsStand self.new }
        ensures err { OnErr result (self.new ≡ self.old) }
        ensures search { (problem : Problem)
            → IsNogood problem (choices_in self.old) (set_of nogood) → IsSearch problem self.old
            → IsSearch problem self.new }
    {
        let from = self.from.min(last_of(&nogood));
        self.store.add_new(nogood)?;
        self.from = from;
        self.ahead = None;
        Ok(())
    }

    /// A noted nogood of which every premise is believed, none where there is no such nogood. It
    /// takes no memory.
    pub fn blocked(&self) -> Option<&PremiseSet>
        ensures listed { IfSome result (λ s. Contains self.now.listed s.now) }
        ensures believed { IfSome result
            (λ s. IsTrue (is_within (set_of self.now.worldview) s.now)) }
        ensures none { result ≡ None
            → has_part self.now.listed (set_of self.now.worldview) ≡ false }
        ensures stand { IsStand self.now }
    {
        self.store.blocks_from(&self.worldview, self.from)
    }

    /// No noted nogood is believed, so none is looked up before something more is.
    pub(crate) fn pass_over(&mut self)
        requires { has_part self.old.listed (set_of self.old.worldview) ≡ false }
        ensures { self.new ≡ self.old }
    {
        self.from = Premise::MAX;
    }
}

/// What is believed in a worldview, and one premise more.
#[inline]
fn with_premise(worldview: &Worldview, premise: Premise) -> Result<Worldview, AllocError>
    ensures { IfOk result (λ w. IsSame (set_of w)
        (union (set_of worldview.now) (set_of (premise ∷ [])))) }
{
    let mut more = worldview.copy()?;
    more.believe(premise)?;
    Ok(more)
}

/// The last premise of a set, or 0 where it has none.
fn last_of(set: &PremiseSet) -> Premise
    ensures { IsTrue (set_of set.now result) ⊎ (set.now ≡ []) }
{
    let mut last = 0;
    for premise in set.iter() {
        last = premise;
    }
    last
}
