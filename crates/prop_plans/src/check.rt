//! Checks a plan, so many calls at a time.
ghost use Rattle.std.specs.Prelude.{◌≡◌, ◌↔◌, ◌<◌, ◌≤◌, All, IsTrue, List, length};
ghost use Rattle.prop_numbers.specs.Sets.{set_of};
ghost use Rattle.prop_procedures.specs.Kept.{AllMean, stored_of};
ghost use Rattle.prop_procedures.specs.Stored.{Stored};
ghost use Rattle.prop_cells.specs.Data.{Data, IsKept};
ghost use Rattle.prop_cells.specs.inner.Problems.{Satisfies};
ghost use Rattle.prop_plans.specs.Plans.{AreValues, IsPlan, IsUnderWay, Satisfy, value_in};
ghost use Rattle.prop_plans.specs.Verdicts.{AreCalls, IfCut, IfYes, Judges};

use crate::looking::{are_implied, are_values, first_unmet};
use prop_cells::{Cells, Network};
use prop_lattice::Info;
use prop_premises::Worldview;
use prop_procedures::Rule;
use std::marker::Model;

/// What a check says of a plan.
#[derive(Clone, Copy, Debug, PartialEq, Eq)]
pub enum Verdict {
    /// It is a plan: all was looked at.
    Yes,
    /// It is none.
    No,
    /// The steps were used up before all was looked at.
    Cut,
}

/// How far one run of a check came.
#[derive(Clone, Copy, Debug, PartialEq, Eq)]
pub struct Progress {
    /// What the check says now.
    pub verdict: Verdict,
    /// How many instances were called.
    pub calls: u64,
}

/// The check of a plan: a value for each cell of a network, whether these are known to fit the
/// cells, and how many instances are known to be met.
#[derive(Drop)]
pub struct Check {
    values: Vec<Info>,
    fitting: bool,
    met: usize,
}

impl Model for Check {
    ghost use Rattle.prop_plans.specs.Plans.{Checked};

    ghost Value = { Checked };

    ghost view = { λ c. record {
      values = c.values.items;
      fitting = c.fitting;
      met = c.met;
    } };
}

impl Check {
    /// The check of these values, one for each cell, before anything is looked at. It takes no
    /// memory.
    pub fn new(values: Vec<Info>) -> Check
        ensures values { result.values ≡ values.items }
        ensures met { result.met ≡ 0 }
        ensures under_way { (library : List Stored) (d : Data) → IsUnderWay library d result }
    {
        Check {
            values,
            fitting: false,
            met: 0,
        }
    }

    /// The values that are checked, one for each cell.
    pub fn values(&self) -> &[Info]
        ensures { result.now ≡ self.now.values }
    {
        &self.values
    }

    /// Whether there is a value of its kind for each cell, and no other. Where there is, that is
    /// known from then on.
    fn has_values(&mut self, cells: &Cells) -> bool
        requires { IsTrue self.old.fitting → AreValues cells.now.kinds self.old.values }
        ensures known { self.new ≡ record self.old { fitting = result } }
        ensures values { IsTrue result ↔ AreValues cells.now.kinds self.old.values }
    {
        if self.fitting {
            return true;
        }
        let fitting = are_values(&self.values, cells);
        self.fitting = fitting;
        fitting
    }

    /// Whether there is a value of its kind for each cell, and no other, and it implies what is
    /// believed of the cell.
    fn may_be(&mut self, cells: &Cells, view: &Worldview) -> bool
        requires cells { All (λ x. x.cell < length cells.now.kinds) cells.now.statements }
        requires fitting { IsTrue self.old.fitting → AreValues cells.now.kinds self.old.values }
        ensures values { self.new.values ≡ self.old.values }
        ensures met { self.new.met ≡ self.old.met }
        ensures fitting { IsTrue self.new.fitting → AreValues cells.now.kinds self.old.values }
        ensures may_be { IsTrue result ↔ (AreValues cells.now.kinds self.old.values
            × All (Satisfies (set_of view.now) (value_in self.old.values))
            cells.now.statements) }
    {
        self.has_values(cells) && are_implied(cells.statements(), &self.values, view)
    }

    /// Looks at each statement, and at the values where they aren't known to fit the cells. Then it
    /// calls up to so many instances as the steps tell, from the first one on that is not known to
    /// be met.
    ///
    /// It says yes only where the values are a plan by what is believed: then the points that they
    /// leave satisfy everything. It says no only where they are none. Where the steps are used up
    /// before, the next run goes on. It takes no memory.
    pub fn go_on<R: Rule + Drop>(
        &mut self,
        network: &Network<R>,
        view: &Worldview,
        steps: u64,
    ) -> Progress
        requires means { AllMean R.value_of network.now.library.procedures.items }
        requires kept { IsKept (stored_of R.value_of network.now.library) network.now.cells }
        requires under_way { IsUnderWay (stored_of R.value_of network.now.library)
            network.now.cells self.old }
        ensures values { self.new.values ≡ self.old.values }
        ensures under_way { IsUnderWay (stored_of R.value_of network.now.library)
            network.now.cells self.new }
        ensures judged { Judges result.verdict (IsPlan
            (stored_of R.value_of network.now.library) network.now.cells (set_of view.now)
            self.old.values) }
        ensures satisfied { IfYes result.verdict (Satisfy
            (stored_of R.value_of network.now.library) network.now.cells (set_of view.now)
            self.old.values) }
        ensures few { result.calls ≤ steps }
        ensures used { IfCut result.verdict (result.calls ≡ steps) }
        ensures left { IfCut result.verdict
            (self.new.met < length network.now.cells.instances) }
        ensures calls { AreCalls result.verdict self.old.met self.new.met result.calls }
    {
        let cells = network.data();
        if !self.may_be(cells, view) {
            return Progress {
                verdict: Verdict::No,
                calls: 0,
            };
        }
        let from = self.met;
        let left = cells.instance_count() - from;
        let wanted = steps.min(left as u64) as usize;
        self.met = first_unmet(network, &self.values, from, from + wanted);
        let met = self.met - from;
        if met < wanted {
            return Progress {
                verdict: Verdict::No,
                calls: met as u64 + 1,
            };
        }
        if met < left {
            return Progress {
                verdict: Verdict::Cut,
                calls: met as u64,
            };
        }
        Progress {
            verdict: Verdict::Yes,
            calls: met as u64,
        }
    }
}
