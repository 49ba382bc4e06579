//! A layer above a teller that answers what fits: `solve`, `least`, `greatest` and `plans`.
//!
//! A `Seeker` carries out each line as its teller does, but for these questions. `solve [C ..]`
//! asks for some points that satisfy all that is believed, with the sides of choices;
//! `least X [C ..]` and `greatest X [C ..]` for the least and the greatest number that a cell can
//! be; `plans N C ..` for up to N points that differ at the cells. Cells that are named are decided
//! first. The search (prop_solve) takes as many steps as a line may; the same question again goes
//! on where it was, as long as no line changed anything between. What is replied is so
//! (`specs/Plans.antt`).
//!
//! `run` is a program's session with a seeker around it.
#![tactic(auto)]

mod asking;
mod bound;
mod exploring;
mod inquiry;
mod interpreting;
mod posting;
mod question;
mod reading;
mod running;
mod seeker;
mod striding;
mod texts;

pub use asking::{as_value, begins};
pub use running::run;
pub use seeker::Seeker;
