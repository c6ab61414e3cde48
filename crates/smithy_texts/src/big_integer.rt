//! Whole numbers of any size, kept as their text.

ghost use Rattle.std.specs.Prelude.{◌≡◌, nat_eq, ℤ, true, List, ℕ, IfOk, IfErr, OnErr, Some, None, is_some};
ghost use Rattle.std.specs.String.{string_bytes};
ghost use Rattle.smithy_texts.specs.Decimal.{integer_form};
ghost use Rattle.smithy_texts.specs.declared.big_integer.BigNumberError.TheVariants.{InvalidFormat, ExponentOutOfRange, NoMemory};
ghost use Rattle.std.specs.Hash as fed;
ghost use Rattle.std.specs.Cmp.Lexicographic.{pointwise, nat_list_eq_equiv};
ghost use Rattle.std.specs.Cmp.{partial_equiv_from_equiv};
ghost use Rattle.std.specs.Cmp.Rules.{hashing};
ghost use Rattle.std.proofs.Common.{rules};

use crate::numeral::{are_digits, number, without_minus};
use itoa::Buffer;
use std::alloc::{AllocError, Global};
use std::hash::{Hash, Hasher};
use std::marker::Model;

/// Why a text isn't taken as a big number.
#[derive(Debug, Clone, Copy, PartialEq, Eq, thiserror::Error)]
pub enum BigNumberError {
    /// The text hasn't the form of the number.
    #[error("InvalidFormat")]
    InvalidFormat,
    /// The exponent leaves the range from -(2^63-1) to 2^63-1.
    #[error("ExponentOutOfRange")]
    ExponentOutOfRange,
    /// There is no memory left.
    #[error("NoMemory")]
    NoMemory,
}

/// The number leaves 128 bits.
#[derive(Debug, Clone, Copy, PartialEq, Eq, thiserror::Error)]
#[error("TooWide")]
pub struct TooWide;

/// A whole number of any size, as its text. Contracts see the text.
#[derive(Debug, Drop)]
pub struct BigInteger {
    text: String,
}

impl Model for BigInteger {
    ghost Value = { List ℕ };

    ghost view = { λ n. string_bytes n.text };

    ghost invariant = { λ n. is_some (integer_form (string_bytes n.text)) ≡ true };
}

impl BigInteger {
    ghost use Rattle.smithy_texts.specs.Numeral.{number};
    ghost use Rattle.std.specs.Result.{OkIff};
    ghost use Rattle.std.specs.Fmt.{signed_decimal};
    ghost use Rattle.std.specs.Prelude.{FitsSigned};
    ghost use Rattle.std.specs.Int.{w128};

    /// Keeps a text that has the form of a whole number.
    pub fn from_str(alloc: Global, s: &str) -> Result<BigInteger, BigNumberError>
        ensures ok { IfOk result (λ n. n ≡ s.now) }
        ensures form { IfOk result (λ n. is_some (integer_form s.now) ≡ true) }
        ensures err { IfErr result (λ e. e ≡ InvalidFormat → integer_form s.now ≡ None) }
        ensures no_exponent { IfErr result (λ e. ¬ (e ≡ ExponentOutOfRange)) }
        // A refused text takes no memory.
        ensures memory { IfErr result (λ e. e ≡ NoMemory → is_some (integer_form s.now) ≡ true) }
    {
        if !are_digits(without_minus(s.as_bytes())) {
            return Err(BigNumberError::InvalidFormat);
        }
        match String::from_str(alloc, s) {
            Ok(text) => Ok(BigInteger { text }),
            Err(_) => Err(BigNumberError::NoMemory),
        }
    }

    /// The text.
    pub fn as_ref(&self) -> &str
        ensures text { result.now ≡ self.now }
        ensures form { is_some (integer_form self.now) ≡ true }
    {
        self.text.as_str()
    }

    /// The number, where it is one of 128 bits.
    pub fn to_i128(&self) -> Result<i128, TooWide>
        ensures value { OkIff result (FitsSigned w128 (number self.now)) (number self.now) }
        ensures form { integer_form self.now ≡ Some (number self.now) }
    {
        match number(self.text.as_bytes()) {
            Some(n) => Ok(n),
            None => Err(TooWide),
        }
    }

    /// The number, as its canonical text.
    pub fn from_i128(alloc: Global, value: i128) -> Result<BigInteger, AllocError>
        ensures text { IfOk result (λ n. n ≡ signed_decimal value) }
        ensures form { integer_form (signed_decimal value) ≡ Some value }
    {
        let mut buffer = Buffer::new();
        let text = String::from_str(alloc, buffer.format(value))?;
        Ok(BigInteger { text })
    }

    /// A copy of the number, in memory of its own.
    pub fn clone_in(&self, alloc: Global) -> Result<BigInteger, AllocError>
        ensures { IfOk result (λ n. n ≡ self.now) }
    {
        let text = String::from_str(alloc, self.text.as_str())?;
        Ok(BigInteger { text })
    }
}

impl PartialEq for BigInteger {
    ghost eq = { pointwise nat_eq };

    ghost laws = { partial_equiv_from_equiv nat_list_eq_equiv };

    fn eq(&self, other: &BigInteger) -> bool {
        self.as_ref() == other.as_ref()
    }
}

impl Eq for BigInteger {
    ghost laws = { nat_list_eq_equiv };
}

impl Hash for BigInteger {
    ghost hash_input = { fed.str };

    ghost respects_eq = { Prim.search (hashing, rules) };

    fn hash<H: Hasher>(&self, state: &mut H) {
        self.as_ref().hash(state);
    }
}
