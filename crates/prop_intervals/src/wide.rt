//! Products and quotients in 128 bits.
ghost use Rattle.std.specs.Prelude.{◌≡◌, ◌^◌, pos, neg_ℤ, ◌*ℤ◌, ◌≤ℤ◌, ◌<ℤ◌};
ghost use Rattle.prop_intervals.specs.Quotients.{int_div_ceil};
ghost use Rattle.prop_intervals.specs.inner.Parts.{int_div_floor};

/// The product.
pub(crate) fn product(a: i64, b: i64) -> i128
    ensures value { result ≡ a *ℤ b }
    ensures least { neg_ℤ (pos (2 ^ 126)) ≤ℤ result }
    ensures greatest { result ≤ℤ pos (2 ^ 126) }
{
    i128::from(a) * i128::from(b)
}

/// The quotient rounded down.
pub(crate) fn div_floor(a: i128, d: i128) -> i128
    requires { pos 0 <ℤ d }
    ensures { result ≡ int_div_floor a d }
{
    a.div_euclid(d)
}

/// The quotient rounded up.
#[tactic(auto, unfolding(crate::specs::Quotients::int_div_ceil))]
pub(crate) fn div_ceil(a: i128, d: i128) -> i128
    requires least { neg_ℤ (pos (2 ^ 126)) ≤ℤ a }
    requires greatest { a ≤ℤ pos (2 ^ 126) }
    requires above { pos 0 <ℤ d }
    ensures { result ≡ int_div_ceil a d }
{
    -div_floor(-a, d)
}
