//! A law of single points.
ghost use Rattle.prop_rows.specs.Exact.{RowsAreExact};

/// Of single points each rule answers those alone that belong to them.
pub fn rows_are_exact()
    ensures { RowsAreExact }
{}
