//! The replies that say a text: values, what they rest on, contradictions, nogoods and the
//! worldview.
//!
//! Each function answers the text that the specs state of its arguments, or want of memory
//! (`value_reply`, `because`, `contradiction_reply`, `worldview_reply`, `nogoods_reply`,
//! `text_reply`).
#![tactic(auto)]

mod labels;
mod nogoods;
mod texts;

pub use labels::{because, print_set};
pub use nogoods::nogoods_reply;
pub use texts::{contradiction_reply, text_reply, value_reply, worldview_reply};
