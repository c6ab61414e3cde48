//! Decimal numbers of any size, kept as their text.

ghost use Rattle.std.specs.Prelude.{◌≡◌, nat_eq, true, false, List, ℕ, IfOk, IfErr, OnOk, ◌++◌};
ghost use Rattle.std.specs.String.{string_bytes};
ghost use Rattle.smithy_texts.specs.Decimal.{is_decimal, exponents_fit, exponent_text};
ghost use Rattle.smithy_texts.specs.declared.big_integer.BigNumberError.TheVariants.{InvalidFormat, ExponentOutOfRange, NoMemory};
ghost use Rattle.std.specs.Hash as fed;
ghost use Rattle.std.specs.Cmp.Lexicographic.{pointwise, nat_list_eq_equiv};
ghost use Rattle.std.specs.Cmp.{partial_equiv_from_equiv};
ghost use Rattle.std.specs.Cmp.Rules.{hashing};
ghost use Rattle.std.proofs.Common.{rules};

use crate::decimal_text::{coefficient, is_decimal, net_exponent};
use crate::numeral::number;
use crate::written_decimal::push_decimal;
use crate::{BigNumberError, TooWide};
use std::alloc::{AllocError, Global};
use std::hash::{Hash, Hasher};
use std::marker::Model;

/// A decimal number of any size, as its text. Contracts see the text.
#[derive(Debug, Drop)]
pub struct BigDecimal {
    text: String,
}

impl Model for BigDecimal {
    ghost Value = { List ℕ };

    ghost view = { λ n. string_bytes n.text };

    ghost invariant = { λ n. (is_decimal (string_bytes n.text) ≡ true)
        × (exponents_fit (string_bytes n.text) ≡ true) };
}

impl BigDecimal {
    ghost use Rattle.smithy_texts.specs.Decimal.{mantissa, net_exponent, decimal_text, decimal_of};
    ghost use Rattle.smithy_texts.specs.Ranges.{is_exponent};
    ghost use Rattle.std.specs.Prelude.{Some};
    ghost use Rattle.std.specs.Result.{OkIff};
    ghost use Rattle.std.specs.Prelude.{FitsSigned};
    ghost use Rattle.std.specs.Int.{w128};

    /// Keeps a text that has the form of a decimal number, and exponents within their limits.
    pub fn from_str(alloc: Global, s: &str) -> Result<BigDecimal, BigNumberError>
        ensures ok { IfOk result (λ n. n ≡ s.now) }
        ensures form { IfOk result (λ n. (is_decimal s.now ≡ true) × (exponents_fit s.now ≡ true)) }
        ensures format { IfErr result (λ e. e ≡ InvalidFormat → is_decimal s.now ≡ false) }
        ensures exponent { IfErr result (λ e. e ≡ ExponentOutOfRange
            → (is_decimal s.now ≡ true) × (exponents_fit s.now ≡ false)) }
        // A refused text takes no memory.
        ensures memory { IfErr result (λ e. e ≡ NoMemory
            → (is_decimal s.now ≡ true) × (exponents_fit s.now ≡ true)) }
    {
        if !is_decimal(s.as_bytes()) {
            return Err(BigNumberError::InvalidFormat);
        }
        if net_exponent(s.as_bytes()).is_none() {
            return Err(BigNumberError::ExponentOutOfRange);
        }
        match String::from_str(alloc, s) {
            Ok(text) => Ok(BigDecimal { text }),
            Err(_) => Err(BigNumberError::NoMemory),
        }
    }

    /// The text.
    pub fn as_ref(&self) -> &str
        ensures text { result.now ≡ self.now }
        ensures form { (is_decimal self.now ≡ true) × (exponents_fit self.now ≡ true) }
    {
        self.text.as_str()
    }

    /// Mantissa and net exponent, where the mantissa is a number of 128 bits.
    pub fn to_parts(&self) -> Result<(i128, i64), TooWide>
        ensures value { OkIff result (FitsSigned w128 (mantissa self.now))
            (mantissa self.now, net_exponent self.now) }
        ensures form { (is_decimal self.now ≡ true) × (exponents_fit self.now ≡ true) }
    {
        let text = self.text.as_bytes();
        match (number(coefficient(text)), net_exponent(text)) {
            (Some(mantissa), Some(exponent)) => Ok((mantissa, exponent)),
            _ => Err(TooWide),
        }
    }

    /// The number, as its canonical text.
    pub fn from_parts(
        alloc: Global,
        mantissa: i128,
        exponent: i64,
    ) -> Result<BigDecimal, AllocError>
        requires { is_exponent exponent ≡ true }
        ensures text { IfOk result (λ n. n ≡ decimal_text mantissa exponent) }
        ensures parts { decimal_of (decimal_text mantissa exponent) ≡ Some (mantissa, exponent) }
    {
        let mut text = String::new(alloc);
        push_decimal(&mut text, mantissa, exponent)?;
        Ok(BigDecimal { text })
    }

    /// A copy of the number, in memory of its own.
    pub fn clone_in(&self, alloc: Global) -> Result<BigDecimal, AllocError>
        ensures { IfOk result (λ n. n ≡ self.now) }
    {
        let text = String::from_str(alloc, self.text.as_str())?;
        Ok(BigDecimal { text })
    }
}

impl PartialEq for BigDecimal {
    ghost eq = { pointwise nat_eq };

    ghost laws = { partial_equiv_from_equiv nat_list_eq_equiv };

    fn eq(&self, other: &BigDecimal) -> bool {
        self.as_ref() == other.as_ref()
    }
}

impl Eq for BigDecimal {
    ghost laws = { nat_list_eq_equiv };
}

impl Hash for BigDecimal {
    ghost hash_input = { fed.str };

    ghost respects_eq = { Prim.search (hashing, rules) };

    fn hash<H: Hasher>(&self, state: &mut H) {
        self.as_ref().hash(state);
    }
}
