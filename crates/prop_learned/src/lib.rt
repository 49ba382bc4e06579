//! What a search learned: the nogoods that it keeps, and the places that it weighs.
//!
//! A store (`Store`) keeps nogoods by number. Those that were derived are watched at two of their
//! literals each, so that a nogood is looked at (`look`) only where one of these may be so: it then
//! says nothing, or is watched elsewhere, or denies the one literal that is left. Others pass with
//! their level (`back`). At a restart the longer ones are let go (`forget`). However often a store
//! is asked, it keeps no nogood that it wasn't given.
//!
//! `Weights` weighs the places by what refuted something of late, and `reading` reads a trail at
//! literals for which it may have no place.
#![tactic(auto)]

pub mod reading;
mod slot;
pub mod store;
pub mod weights;

pub use reading::{is_barred, is_so};
pub use store::{Look, Store};
pub use weights::Weights;
