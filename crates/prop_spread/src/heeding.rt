//! Which changes of a cell an instance heeds, and which instances say for it what it might say.

use crate::present::is_decided;
use prop_cells::{Instance, Network};
use prop_facts::Changes;
use prop_guards::Guarded;
use prop_lattice::Info;
use prop_procedures::Rule;
use prop_trail::Trail;

/// How far apart the instances of one constraint stand at the most, by their numbers.
const NEAR: usize = 8;

/// How many numbers a place has at the most of which single ones are kept out.
const FEW: u64 = 256;

/// No change.
const NONE: Changes = Changes {
    low: false,
    high: false,
    point: false,
    hole: false,
};

/// Both the ones and the others.
fn all_of(ones: Changes, others: Changes) -> Changes {
    Changes {
        low: ones.low || others.low,
        high: ones.high || others.high,
        point: ones.point || others.point,
        hole: ones.hole || others.hole,
    }
}

/// Whether the trail keeps single numbers out of a place.
fn has_holes(trail: &Trail, place: usize) -> bool {
    if place >= trail.places() {
        return false;
    }
    match trail.root(place) {
        Info::Span(span) => span.count() <= FEW,
        _ => false,
    }
}

/// Whether a rule only says more once another input than its own is decided. What that rules out of
/// its own is ruled out at once, so that changes of its own don't count where that is kept.
fn acts_by_points<R: Guarded>(rule: &R, own: usize, count: usize) -> bool {
    for place in 0..count {
        let heeded = rule.heeds(place, count);
        if place != own && (heeded.low || heeded.high || heeded.hole) {
            return false;
        }
    }
    true
}

/// Whether an instance needn't heed its own place.
fn is_deaf<R: Guarded>(rule: &R, trail: &Trail, x: &Instance, place: usize) -> bool {
    let count = x.inputs().len();
    rule.own_place() == Some(place)
        && x.inputs().get(place) == Some(&x.output())
        && has_holes(trail, x.output())
        && acts_by_points(rule, place, count)
}

/// The changes of the input at a place that a rule heeds, where the input that it waits for has
/// this element alone left.
fn heeds<R: Guarded>(rule: &R, place: usize, count: usize, element: Option<u64>) -> Changes {
    match element {
        Some(element) => rule.heeds_under(place, count, element),
        None => rule.heeds(place, count),
    }
}

/// The changes of a cell that an instance heeds, where its gate has this element alone left.
pub(crate) fn heeded<R: Guarded + Drop>(
    network: &Network<R>,
    trail: &Trail,
    x: &Instance,
    cell: usize,
    element: Option<u64>,
) -> Changes {
    if x.procedure() >= network.library().len() {
        return NONE;
    }
    let rule = network.library().get(x.procedure()).rule();
    let count = x.inputs().len();
    let mut heeded = NONE;
    for place in 0..count {
        if x.inputs()[place] == cell && !is_deaf(rule, trail, x, place) {
            heeded = all_of(heeded, heeds(rule, place, count, element));
        }
    }
    heeded
}

/// Whether an instance near this one says something of a cell by another one.
fn says<R: Rule + Drop>(network: &Network<R>, near: usize, cell: usize, by: usize) -> bool {
    let first = near.saturating_sub(NEAR);
    let last = near.saturating_add(NEAR).min(network.instances());
    for instance in first..last {
        let x = network.data().instance(instance);
        if x.output() == cell && x.inputs().contains(&by) {
            return true;
        }
    }
    false
}

/// The output of an instance, where instances near it say the same of each of its inputs by it.
pub(crate) fn mirrored<R: Rule + Drop>(network: &Network<R>, instance: usize) -> Option<usize> {
    if instance >= network.instances() {
        return None;
    }
    let x = network.data().instance(instance);
    let output = x.output();
    for input in x.inputs() {
        if !says(network, instance, *input, output) {
            return None;
        }
    }
    Some(output)
}

/// Whether a place is decided where nothing is supposed.
pub(crate) fn is_decided_at_root(trail: &Trail, place: usize) -> bool {
    place < trail.places() && is_decided(trail.root(place))
}
