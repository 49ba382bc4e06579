//! Facts that what is believed says.
ghost use Rattle.std.specs.Prelude.{◌≡◌, ◌<◌, [], List, ℕ, length, true, false, Ok, OnErr};
ghost use Rattle.std.specs.Bool.{OnFalse, OnTrue};
ghost use Rattle.prop_numbers.specs.Sets.{IsPart, set_of};
ghost use Rattle.prop_premises.specs.declared.choice.Choice.{Choice};
ghost use Rattle.prop_procedures.specs.Kept.{stored_of};
ghost use Rattle.prop_cells.specs.Data.{IsKept};
ghost use Rattle.prop_refuting.specs.Nogoods.{Narrows, Replaces, ReplacesUnder};
ghost use Rattle.prop_plans.specs.Held.{attached_of};

use crate::nogood::Nogood;
use prop_cells::Network;
use prop_premises::Worldview;
use prop_procedures::Rule;
use std::alloc::AllocError;

impl Nogood {
    /// Where what a worldview believes of a literal's cell says its fact, the literal goes, the
    /// last one stands in its place, premises of the worldview that say so come, and the answer is
    /// true. Otherwise, and where memory is refused, nothing changes.
    pub fn by_belief<R: Rule + Drop>(
        &mut self,
        network: &Network<R>,
        worldview: &Worldview,
        at: usize,
    ) -> Result<bool, AllocError>
        requires at { at < length self.old.literals }
        requires kept { IsKept (stored_of R.value_of network.now.library) network.now.cells }
        ensures err { OnErr result (self.new ≡ self.old) }
        ensures still { result ≡ Ok false → self.new ≡ self.old }
        ensures step { result ≡ Ok true → (came : List ℕ)
            × IsPart (set_of came) (set_of worldview.now)
            × ReplacesUnder self.old at [] came self.new }
        ensures narrows { (choices : List Choice)
            → Narrows (stored_of R.value_of network.now.library) (attached_of network.now.cells)
            choices self.old self.new }
    {
        let literal = self.literals()[at];
        if literal.place >= network.cells() {
            return Ok(false);
        }
        let why = network.explanation(literal.place, worldview)?;
        if !literal.fact.follows_from(why.value) {
            return Ok(false);
        }
        self.replace_under(at, &[], &why.support)?;
        Ok(true)
    }

    /// Where what a cell holds by no premise says a literal's fact, the literal goes, the last one
    /// stands in its place, and the answer is true. Otherwise nothing changes.
    pub fn by_given<R: Rule + Drop>(&mut self, network: &Network<R>, at: usize) -> bool
        requires at { at < length self.old.literals }
        requires kept { IsKept (stored_of R.value_of network.now.library) network.now.cells }
        ensures still { OnFalse result (self.new ≡ self.old) }
        ensures step { OnTrue result (Replaces self.old at [] self.new) }
        ensures narrows { (choices : List Choice)
            → Narrows (stored_of R.value_of network.now.library) (attached_of network.now.cells)
            choices self.old self.new }
    {
        let literal = self.literals()[at];
        if literal.place >= network.cells() {
            return false;
        }
        let given = network.belief(literal.place, &Worldview::empty(self.alloc()));
        if !literal.fact.follows_from(given) {
            return false;
        }
        self.drop_at(at);
        true
    }
}
