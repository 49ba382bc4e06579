//! What is surely known of a cell.

use prop_lattice::Span;
use prop_procedures::Kinded;

/// A cell's kind, and the span in which its number surely lies, on no premise. Of a cell of another
/// kind the span says nothing.
#[derive(Clone, Copy)]
pub struct Known {
    pub kinded: Kinded,
    pub span: Span,
}
