// Numbers in decimal.
ghost use Rattle.std.specs.Prelude.{◌≡◌, ◌≢◌, ◌<◌, ◌∷◌, ◌++◌, [], ℕ, List, Some, length, IfOk, IfSome, IfNone};
ghost use Rattle.query_tree.specs.Decimals.{AreDigits, IsDecimal, trimmed_front, trimmed_whole, trimmed_back, trimmed_decimal};

use owned_bytes::Text;
use std::alloc::{AllocError, Global};
use std::marker::Model;

/// A number in decimal: whole digits without zeros in front, at least `0`, and fraction digits
/// without zeros behind. Contracts see it as its digits.
#[derive(Debug, PartialEq, Eq, Hash, Drop)]
pub struct Decimal {
    whole: Text,
    fraction: Text,
}

impl Model for Decimal {
    ghost use Rattle.query_tree.specs.Decimals.{Digits, IsDecimal};

    ghost Value = { Digits };

    ghost view = { λ d. record { whole = d.whole; fraction = d.fraction } };

    ghost invariant = { λ d. IsDecimal d.whole d.fraction };

    ghost inverse = { λ digits. record { whole = digits.whole; fraction = digits.fraction } };
}

// The text behind its first character, which is a zero.
fn behind_zero(digits: &str) -> Option<&str>
    ensures none { IfNone result ((rest : List ℕ) → digits.now ≢ 48 ∷ rest) }
    ensures some { IfSome result (λ rest. digits.now ≡ 48 ∷ rest.now) }
{
    digits.strip_prefix('0')
}

// The text before its last character, which is a zero.
fn before_zero(digits: &str) -> Option<&str>
    ensures none { IfNone result ((front : List ℕ) → digits.now ≢ front ++ 48 ∷ []) }
    ensures some { IfSome result (λ front. digits.now ≡ front.now ++ 48 ∷ []) }
{
    digits.strip_suffix('0')
}

#[tactic(auto, using(crate::proofs::Digits::front_turn, crate::proofs::Digits::front_ends))]
fn without_zeros_in_front(digits: &str) -> &str
    ensures { result.now ≡ trimmed_front digits.now }
{
    let mut rest = digits;
    while let Some(shorter) = behind_zero(rest) {
        rest = shorter;
    }
    rest
}

fn whole_part(digits: &str) -> &str
    ensures { result.now ≡ trimmed_whole digits.now }
{
    let rest = without_zeros_in_front(digits);
    if rest.is_empty() { "0" } else { rest }
}

#[tactic(auto, using(crate::proofs::Digits::back_turn, crate::proofs::Digits::back_ends))]
fn without_zeros_behind(digits: &str) -> &str
    ensures { result.now ≡ trimmed_back digits.now }
{
    let mut front = digits;
    while let Some(shorter) = before_zero(front) {
        front = shorter;
    }
    front
}

impl Decimal {
    /// The number of these digits, without zeros in front of the whole part and behind the
    /// fraction. A whole part of zeros alone is `0`.
    #[tactic(auto, unfolding(crate::specs::Decimals::trimmed_decimal))]
    pub fn new(alloc: Global, whole: &str, fraction: &str) -> Result<Decimal, AllocError>
        requires not_empty { 0 < length whole.now }
        requires digits { AreDigits whole.now }
        requires fraction_digits { AreDigits fraction.now }
        ensures { IfOk result (λ d. d ≡ trimmed_decimal whole.now (Some fraction.now)) }
    {
        Ok(Decimal {
            whole: Text::from_str(alloc, whole_part(whole))?,
            fraction: Text::from_str(alloc, without_zeros_behind(fraction))?,
        })
    }

    /// The digits in front of the dot, at least one.
    pub fn whole(&self) -> &str
        ensures digits { result.now ≡ self.now.whole }
        ensures valid { IsDecimal self.now.whole self.now.fraction }
    {
        self.whole.as_str()
    }

    /// The digits behind the dot, or none.
    pub fn fraction(&self) -> &str
        ensures digits { result.now ≡ self.now.fraction }
        ensures valid { IsDecimal self.now.whole self.now.fraction }
    {
        self.fraction.as_str()
    }

    /// The same number.
    pub fn clone(&self, alloc: Global) -> Result<Decimal, AllocError>
        ensures { IfOk result (λ d. d ≡ self.now) }
    {
        Ok(Decimal {
            whole: self.whole.clone(alloc)?,
            fraction: self.fraction.clone(alloc)?,
        })
    }
}
