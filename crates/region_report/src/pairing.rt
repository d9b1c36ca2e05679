//! Values of two lists, made into one at each place.

ghost use Rattle.std.specs.Prelude.{◌≡◌, ℤ};
ghost use Rattle.region_report.specs.Spans as Spans;

use papi_base::Values;

// What two values make.
pub(crate) trait Pairing {
    ghost makes: { ℤ → ℤ → ℤ };

    fn make(first: i64, second: i64) -> i64
        ensures { result ≡ makes first second };
}

// Their sum, wrapped to signed 64 bits.
pub(crate) struct Sum;

impl Pairing for Sum {
    ghost use Rattle.std.specs.Int.{int_wrapping_add, w64};

    ghost makes = { int_wrapping_add w64 };

    fn make(first: i64, second: i64) -> i64 {
        first.wrapping_add(second)
    }
}

// The first less the second, wrapped to signed 64 bits.
pub(crate) struct Difference;

impl Pairing for Difference {
    ghost use Rattle.std.specs.Int.{int_wrapping_sub, w64};

    ghost makes = { int_wrapping_sub w64 };

    fn make(first: i64, second: i64) -> i64 {
        first.wrapping_sub(second)
    }
}

// What the values at each place make.
pub(crate) fn pairwise<P: Pairing>(first: &Values, second: &Values) -> Values
    ensures { result ≡ Spans.pairwise P.makes first.now second.now }
{
    let mut values = Values::new();
    for i in 0..first.len().min(second.len()) {
        values.push(P::make(first.at(i), second.at(i)));
    }
    values
}
