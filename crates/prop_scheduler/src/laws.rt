//! What follows from the definitions alone, whatever the network.
ghost use Rattle.prop_scheduler.specs.Alike.{IsDeterminate, StirsOnce, TurnsAlike};
ghost use Rattle.prop_scheduler.specs.Bounds.{MostIsMost, MostOfSmall};
ghost use Rattle.prop_scheduler.specs.Orders.{picks_first, picks_last, picks_mixed};

use crate::order::Order;

/// How many steps a run can take, by the cells and the instances alone.
pub fn steps_are_bounded()
    ensures most { MostIsMost }
    ensures small { MostOfSmall }
{}

/// Which instances wait, and in which order, is determined; by an order that picks one place alone,
/// as each of the three does, the calls are too.
pub fn calls_are_determined<O: Order>()
    ensures stirs { StirsOnce }
    ensures turns { TurnsAlike O.picks }
    ensures first { IsDeterminate picks_first }
    ensures last { IsDeterminate picks_last }
    ensures mixed { IsDeterminate picks_mixed }
{}
