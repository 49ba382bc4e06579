//! What has to be decided before an instance says anything.

use crate::present::Present;
use prop_cells::{Instance, Network};
use prop_guards::Guarded;
use prop_lattice::Info;
use prop_procedures::Rule;
use prop_trail::Trail;
use std::alloc::{AllocError, Global};

/// A place of which one element alone has to be left before an instance says anything, and those
/// with which it does, as bits.
#[derive(Clone, Copy)]
pub(crate) struct Gate {
    place: usize,
    speaks: u64,
}

/// The elements that may be a place's where nothing is supposed.
fn elements_of(trail: &Trail, place: usize) -> u64 {
    if place >= trail.places() {
        return 0;
    }
    match trail.root(place) {
        Info::Set(elements) => elements.bits(),
        _ => 0,
    }
}

/// One of the points that an information leaves.
fn first_point(info: Info) -> Info {
    match info {
        Info::Span(span) => Info::between(span.lo(), span.lo()),
        Info::Set(elements) => Info::from_bits(elements.bits() & elements.bits().wrapping_neg()),
        _ => info,
    }
}

/// A point of each input of an instance.
fn first_points(alloc: Global, trail: &Trail, x: &Instance) -> Result<Vec<Info>, AllocError> {
    let mut points = Vec::new(alloc);
    for cell in x.inputs() {
        let info = match *cell < trail.places() {
            true => trail.root(*cell),
            false => Info::Nothing,
        };
        points.push(first_point(info))?;
    }
    Ok(points)
}

/// Of these elements those with which, at this place, a rule says something of points.
fn spoken<R: Guarded>(
    rule: &R,
    x: &Instance,
    points: &mut [Info],
    place: usize,
    elements: u64,
) -> u64 {
    let mut speaks = 0;
    let mut left = elements;
    for _ in 0..elements.count_ones() {
        let bit = left & left.wrapping_neg();
        left &= !bit;
        if let Some(point) = points.get_mut(place) {
            *point = Info::from_bits(bit);
        }
        if !rule.says_nothing(x.param(), points) {
            speaks |= bit;
        }
    }
    speaks
}

/// The gate of an instance.
pub(crate) fn gate_of<R: Guarded + Drop>(
    alloc: Global,
    network: &Network<R>,
    trail: &Trail,
    x: &Instance,
) -> Result<Option<Gate>, AllocError> {
    if x.procedure() >= network.library().len() {
        return Ok(None);
    }
    let rule = network.library().get(x.procedure()).rule();
    let Some(at) = rule.waits_for() else {
        return Ok(None);
    };
    let Some(place) = x.inputs().get(at) else {
        return Ok(None);
    };
    let mut points = first_points(alloc, trail, x)?;
    let speaks = spoken(rule, x, &mut points, at, elements_of(trail, *place));
    Ok(Some(Gate {
        place: *place,
        speaks,
    }))
}

impl Gate {
    /// Whether nothing is said now.
    pub(crate) fn is_shut(&self, present: &Present) -> bool {
        match present.info(self.place) {
            Info::Set(elements) => {
                let bits = elements.bits();
                bits & bits.wrapping_sub(1) != 0 || bits & self.speaks == 0
            }
            _ => true,
        }
    }

    /// Whether it is open where nothing is supposed, and so for good.
    pub(crate) fn stands_open(&self, trail: &Trail) -> bool {
        let elements = elements_of(trail, self.place);
        elements.count_ones() == 1 && elements & self.speaks != 0
    }

    /// The elements with which something is said, as bits.
    pub(crate) fn speaks(&self) -> u64 {
        self.speaks
    }

    /// The gate that these elements alone open.
    pub(crate) fn only(&self, elements: u64) -> Gate {
        Gate {
            place: self.place,
            speaks: elements,
        }
    }

    /// Whether nothing is said by any element.
    pub(crate) fn is_mute(&self) -> bool {
        self.speaks == 0
    }
}
