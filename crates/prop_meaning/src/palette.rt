//! Instances of a program's procedures.
ghost use Rattle.std.specs.Prelude.{◌≡◌, ℕ, map, IfOk};
ghost use Rattle.prop_meaning.specs.Palette.{IsFlatOf, instance_of, numbered, param_place};
ghost use Rattle.prop_meaning.specs.Acts.{inputs_of};
ghost use Rattle.prop_meaning.specs.declared.acts.Rule.{Rule as Rules};

use crate::acts::{Act, Inputs, Rule};
use crate::posting::Posted;
use prop_arith::Kit;
use prop_procedures::{Flat, Kinded, Param, Placed};
use std::alloc::{AllocError, Global};

/// Which of a program's procedures has a rule.
pub trait Palette {
    /// The procedure's number.
    ghost number_of: { Self → Rules → ℕ };

    /// The number of a procedure of the rule.
    fn number(&self, rule: Rule) -> usize
        ensures { result ≡ number_of self.now rule };
}

/// The places of inputs.
fn inputs_of(alloc: Global, inputs: Inputs) -> Result<Vec<usize>, AllocError>
    ensures { IfOk result (λ places. places.items ≡ inputs_of inputs) }
{
    match inputs {
        Inputs::One(x) => Ok(Vec::from_array(alloc, [x])?),
        Inputs::Two(x, y) => Ok(Vec::from_array(alloc, [x, y])?),
        Inputs::Three(x, y, z) => Ok(Vec::from_array(alloc, [x, y, z])?),
    }
}

/// Where the rule takes a scale, the place of the one parameter.
fn param_place(rule: Rule) -> Option<usize>
    ensures { result ≡ param_place rule }
{
    match rule {
        Rule::OfKit(Kit::Mul | Kit::Div) => Some(0),
        _ => None,
    }
}

/// The instance of the procedure that has the rule.
fn numbered<P: Palette>(alloc: Global, palette: &P, act: &Act) -> Result<Placed, AllocError>
    ensures { IfOk result (λ x. instance_of x ≡ numbered (P.number_of palette.now) act.now) }
{
    let inputs = inputs_of(alloc, act.inputs)?;
    Ok(Placed {
        procedure: palette.number(act.rule),
        param: param_place(act.rule),
        inputs,
        output: act.output,
    })
}

/// Those of all.
fn all_numbered<P: Palette>(
    alloc: Global,
    palette: &P,
    acts: &[Act],
) -> Result<Vec<Placed>, AllocError>
    ensures { IfOk result (λ instances. map instance_of instances.items
        ≡ map (numbered (P.number_of palette.now)) acts.now) }
{
    let mut instances = Vec::new(alloc);
    for act in acts {
        instances.push(numbered(alloc, palette, act)?)?;
    }
    Ok(instances)
}

/// The same kinds once more.
fn copied(alloc: Global, kinds: &[Kinded]) -> Result<Vec<Kinded>, AllocError>
    ensures { IfOk result (λ copied. copied.items ≡ kinds.now) }
{
    let mut copied = Vec::new(alloc);
    copied.extend_from_slice(kinds)?;
    Ok(copied)
}

/// The instances as those of a program's procedures. Those that take a scale are given the scale 1,
/// which is the one parameter.
pub fn flat<P: Palette>(alloc: Global, palette: &P, posted: &Posted) -> Result<Flat, AllocError>
    ensures { IfOk result (λ flat. IsFlatOf (P.number_of palette.now) posted.now flat) }
{
    let fresh = copied(alloc, &posted.fresh)?;
    let params = Vec::from_array(alloc, [Param::Scale(1)])?;
    let instances = all_numbered(alloc, palette, &posted.acts)?;
    Ok(Flat {
        fresh,
        params,
        instances,
    })
}
