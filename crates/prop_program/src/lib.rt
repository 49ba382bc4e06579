//! What programs of the workbench share, whatever rules they come with.
//!
//! A session over the procedures and the prelude that a program gives is a dialogue of the
//! workbench with its devices, with work behind it in the order that was chosen, from the seed that
//! was given; or memory was refused before the devices were called (`run`).
//!
//! The options are what the option reader gives, in their ranges (`options`). Where there are none,
//! help and the version are sent to the devices, and for all else they are not called
//! (`chosen_options`). Each end has its exit status (`ended`). Where the rules' answers hold the
//! points that belong together, they do so in the library (`rules_are_sound`).
#![tactic(auto)]

pub mod chosen;
pub mod fault;
pub mod laws;
pub mod options;
pub mod running;
pub mod starting;

pub use chosen::{Options, Pick};
pub use fault::Fault;
pub use laws::rules_are_sound;
pub use options::Said;
pub use running::run;
pub use starting::{chosen_options, ended};
