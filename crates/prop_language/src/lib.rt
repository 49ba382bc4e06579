//! What a line of the workbench's language says.
//!
//! A line is read as a command just where its tokens are some that spell it, its names are names
//! and its numbers in range, and is refused for the first reason that it gives (`read_line`,
//! `name`, `number_in`, `natural_in`). Each line has one reading (`lines_have_one_reading`).
#![tactic(auto)]

mod choices;
pub mod command;
mod forms;
mod names;
mod numbers;
mod reading;
mod steps;
mod tokens;

pub use command::{By, Command, KindWord, Passed, Step, Value};
pub use forms::MOST_STEPS;
pub use names::name;
pub use numbers::{natural_in, number_in};
pub use reading::{lines_have_one_reading, read_line};
