//! The texts of replies to questions what can't all hold.
ghost use Rattle.std.specs.Prelude.{◌≡◌, IfOk, take};
ghost use Rattle.prop_blaming.specs.Texts.{heading_text, others_text};
ghost use Rattle.prop_blaming.specs.inner.Blamers.{AreListed};

use crate::blamer::Blamer;
use prop_conflicts::Explorer;
use prop_guards::Guarded;
use prop_hitting::{Conflict, cost};
use prop_premises::PremiseSet;
use prop_scheduler::Order;
use std::alloc::{AllocError, Global};
use std::fmt::Write;

/// Whether there are others.
fn others(all: bool) -> &'static str
    ensures { result.now ≡ others_text all }
{
    if all {
        "\nothers none"
    } else {
        "\nothers unknown"
    }
}

/// How the line of a conflict begins.
fn heading(is_least: bool) -> &'static str
    ensures { result.now ≡ heading_text is_least }
{
    if is_least {
        "\nconflict:"
    } else {
        "\nunsettled:"
    }
}

/// The same conflict again.
fn copy(conflict: &Conflict) -> Result<Conflict, AllocError>
    ensures { IfOk result (λ c. c ≡ conflict.now) }
{
    Ok(Conflict {
        premises: conflict.premises.copy()?,
        is_least: conflict.is_least,
    })
}

/// The first of the conflicts, so many at the most.
fn first_conflicts(
    alloc: Global,
    conflicts: &[Conflict],
    most: usize,
) -> Result<Vec<Conflict>, AllocError>
    ensures { IfOk result (λ v. v.items ≡ take most conflicts.now) }
{
    let mut found = Vec::new(alloc);
    for number in 0..most.min(conflicts.len()) {
        found.push(copy(&conflicts[number])?)?;
    }
    Ok(found)
}

/// The conflicts that are told: those that were found, and the refuted premises that are made
/// fewer, so many at the most.
pub(crate) fn listed_conflicts(
    alloc: Global,
    explorer: &Explorer,
    most: usize,
) -> Result<Vec<Conflict>, AllocError>
    ensures { IfOk result (λ v. AreListed explorer.now most v.items) }
{
    let mut found = first_conflicts(alloc, explorer.conflicts(), most)?;
    let Some(premises) = explorer.shrinking() else {
        return Ok(found);
    };
    if found.len() >= most {
        return Ok(found);
    }
    found.push(Conflict {
        premises: premises.copy()?,
        is_least: false,
    })?;
    Ok(found)
}

/// The first of the repairs, so many at the most.
pub(crate) fn first_repairs(repairs: &[PremiseSet], most: usize) -> &[PremiseSet]
    ensures { result.now ≡ take most repairs.now }
{
    &repairs[..most.min(repairs.len())]
}

impl<R: Guarded + Drop, O: Order + Drop> Blamer<R, O> {
    ghost use Rattle.std.specs.Prelude.{◌≡◌, ◌++◌, All, IfOk, OnOk, string_bytes};
    ghost use Rattle.prop_blaming.specs.Texts.{conflict_text, conflicts_text, repair_text};
    ghost use Rattle.prop_blaming.specs.Texts.{cheapest_text, costed_text, repairs_text};
    ghost use Rattle.prop_blaming.specs.inner.Blamers.{AreBelieved};

    /// Writes a conflict on a line of its own.
    fn push_conflict(&self, conflict: &Conflict, text: &mut String) -> Result<(), AllocError>
        requires { AreBelieved self.now.seeker.teller.session.search.premises
            conflict.now.premises }
        ensures { OnOk result (string_bytes text.new ≡ string_bytes text.old ++ conflict_text
            self.now.seeker.teller.session.search.premises conflict.now) }
    {
        let heading = heading(conflict.is_least);
        let names = self.seeker.premises(&conflict.premises)?;
        write!(text, "{heading}{names}")
    }

    /// Conflicts, and whether there are others.
    pub(crate) fn conflicts_text(&self, found: &[Conflict], all: bool) -> Result<String, AllocError>
        requires { All (λ c. AreBelieved self.now.seeker.teller.session.search.premises c.premises)
            found.now }
        ensures { IfOk result (λ text. string_bytes text
            ≡ conflicts_text self.now.seeker.teller.session.search.premises found.now all) }
    {
        let count = found.len();
        let mut text = format!(in self.seeker.alloc(); "conflicts {count}")?;
        for conflict in found {
            self.push_conflict(conflict, &mut text)?;
        }
        let others = others(all);
        write!(text, "{others}")?;
        Ok(text)
    }

    /// Writes a repair on a line of its own.
    fn push_repair(&self, out: &PremiseSet, text: &mut String) -> Result<(), AllocError>
        requires { AreBelieved self.now.seeker.teller.session.search.premises out.now }
        ensures { OnOk result (string_bytes text.new ≡ string_bytes text.old ++ repair_text
            self.now.seeker.teller.session.search.premises out.now) }
    {
        let names = self.seeker.premises(out)?;
        write!(text, "\nrepair:{names}")
    }

    /// Repairs, and whether there are others.
    pub(crate) fn repairs_text(&self, found: &[PremiseSet], all: bool) -> Result<String, AllocError>
        requires { All (AreBelieved self.now.seeker.teller.session.search.premises) found.now }
        ensures { IfOk result (λ text. string_bytes text
            ≡ repairs_text self.now.seeker.teller.session.search.premises found.now all) }
    {
        let count = found.len();
        let mut text = format!(in self.seeker.alloc(); "repairs {count}")?;
        for out in found {
            self.push_repair(out, &mut text)?;
        }
        let others = others(all);
        write!(text, "{others}")?;
        Ok(text)
    }

    /// Writes a repair with what it costs on a line of its own.
    fn push_costed(
        &self,
        weights: &[u32],
        out: &PremiseSet,
        text: &mut String,
    ) -> Result<(), AllocError>
        requires { AreBelieved self.now.seeker.teller.session.search.premises out.now }
        ensures { OnOk result (string_bytes text.new ≡ string_bytes text.old ++ costed_text
            self.now.seeker.teller.session.search.premises weights.now out.now) }
    {
        let cost = cost(weights, out);
        let names = self.seeker.premises(out)?;
        write!(text, "\nrepair {cost}:{names}")
    }

    /// Repairs with what they cost, and whether there are others.
    pub(crate) fn cheapest_text(
        &self,
        weights: &[u32],
        found: &[PremiseSet],
        all: bool,
    ) -> Result<String, AllocError>
        requires { All (AreBelieved self.now.seeker.teller.session.search.premises) found.now }
        ensures { IfOk result (λ text. string_bytes text
            ≡ cheapest_text self.now.seeker.teller.session.search.premises weights.now
            found.now all) }
    {
        let count = found.len();
        let mut text = format!(in self.seeker.alloc(); "repairs {count}")?;
        for out in found {
            self.push_costed(weights, out, &mut text)?;
        }
        let others = others(all);
        write!(text, "{others}")?;
        Ok(text)
    }
}
