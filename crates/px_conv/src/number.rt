//! Converters of numbers, which stay within 64 bits.
ghost use Rattle.std.specs.Prelude.{◌≡◌, ℕ, List, neg_ℤ, ◌+ℤ◌, ◌-ℤ◌, ◌*ℤ◌};
ghost use Rattle.px_sample.specs.Sample.{value_in};
ghost use Rattle.px_conv.specs.Conv.{of_number, saturated, quotient, remainder};

use px_sample::Sample;

pub fn add(number: Option<i64>, n: i64) -> Sample
    ensures { (bytes : List ℕ) → value_in result bytes ≡ of_number (λ x. saturated (x +ℤ n)) number }
{
    match number {
        Some(number) => Sample::Number(number.saturating_add(n)),
        None => Sample::Absent,
    }
}

pub fn sub(number: Option<i64>, n: i64) -> Sample
    ensures { (bytes : List ℕ) → value_in result bytes ≡ of_number (λ x. saturated (x -ℤ n)) number }
{
    match number {
        Some(number) => Sample::Number(number.saturating_sub(n)),
        None => Sample::Absent,
    }
}

pub fn mul(number: Option<i64>, n: i64) -> Sample
    ensures { (bytes : List ℕ) → value_in result bytes ≡ of_number (λ x. saturated (x *ℤ n)) number }
{
    match number {
        Some(number) => Sample::Number(number.saturating_mul(n)),
        None => Sample::Absent,
    }
}

/// Towards 0; by zero the greatest number.
pub fn div(number: Option<i64>, n: i64) -> Sample
    ensures { (bytes : List ℕ) → value_in result bytes ≡ of_number (λ x. quotient x n) number }
{
    match number {
        Some(_) if n == 0 => Sample::Number(i64::MAX),
        Some(number) => Sample::Number(number.saturating_div(n)),
        None => Sample::Absent,
    }
}

/// The remainder of `div`; by zero 0.
pub fn rem(number: Option<i64>, n: i64) -> Sample
    ensures { (bytes : List ℕ) → value_in result bytes ≡ of_number (λ x. remainder x n) number }
{
    match number {
        Some(_) if n == 0 => Sample::Number(0),
        Some(number) => Sample::Number(number.wrapping_rem(n)),
        None => Sample::Absent,
    }
}

pub fn neg(number: Option<i64>) -> Sample
    ensures { (bytes : List ℕ) → value_in result bytes ≡ of_number (λ x. saturated (neg_ℤ x)) number }
{
    match number {
        Some(number) => Sample::Number(number.saturating_neg()),
        None => Sample::Absent,
    }
}
