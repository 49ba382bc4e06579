//! What a use stands for, as it is handed out: fresh cells, parameters and instances at places.

use crate::shape::{Kinded, Param};

/// An instance: a procedure by its number, the place of its parameter in a list where it is given
/// one, and its cells.
#[derive(Drop)]
pub struct Placed {
    pub procedure: usize,
    pub param: Option<usize>,
    pub inputs: Vec<usize>,
    pub output: usize,
}

/// The kinds of the fresh cells, parameters, and the instances in order. A cell is a place among
/// the given cells followed by the fresh ones.
#[derive(Drop)]
pub struct Flat {
    pub fresh: Vec<Kinded>,
    pub params: Vec<Param>,
    pub instances: Vec<Placed>,
}
