//! Values, as trees that keep all that they have themselves.
ghost use Rattle.std.specs.Prelude.{[], refl};
ghost use Rattle.smithy_value.specs.View.{view as value_view, view_elements as value_elements, view_entries as value_entries, view_members as value_members};

use crate::entries::{Entries, Members};
use crate::tree::{Part, Trees};
use crate::value::Value;
use smithy_schema::SerdeError;
use smithy_types::{DateTime, Document};
use std::alloc::Global;
use std::borrow::{CowSlice, CowStr};
use std::collections::BTreeMap;

/// The trees are values. Beside them nothing is stored.
#[derive(Drop)]
pub struct ValueTrees<'a> {
    // Nothing: it only names the lifetime of the input.
    nothing: &'a [u8],
}

impl<'a> ValueTrees<'a> {
    /// No trees.
    pub fn new() -> ValueTrees<'a> {
        ValueTrees { nothing: &[] }
    }
}

impl<'a> Trees for ValueTrees<'a> {
    type Tree = Value<'a>;

    type Text = CowStr<'a, Global>;

    type Bytes = CowSlice<'a, u8, Global>;

    type Elements = Vec<Value<'a>>;

    type Entries = BTreeMap<String, Value<'a>>;

    type Members = BTreeMap<u32, Value<'a>>;

    ghost sound = { λ p i. Unit {0} };

    ghost keeps = { λ p q. Unit {0} };

    ghost keeps_lawfully = { record { itself = λ p i s. tt; twice = λ p q r a b. tt; sound_still = λ p q i s k. tt } };

    ghost stands = { λ p v. Unit {0} };

    ghost view = { λ p v. value_view v };

    ghost key_of = { λ p v. [] };

    ghost position_of = { λ v. 0 };

    ghost begun_elements = { λ p q v. Unit {0} };

    ghost view_elements = { λ p v. value_elements v.items };

    ghost elements_grow_lawfully = { record { sound_still = λ p q i h s b. tt; begun_still = λ p q r h b k. tt; shown_still = λ p q r h b k. refl } };

    ghost begun_entries = { λ p q m. Unit {0} };

    ghost view_entries = { λ p m. value_entries m.entries };

    ghost entries_grow_lawfully = { record { sound_still = λ p q i h s b. tt; begun_still = λ p q r h b k. tt; shown_still = λ p q r h b k. refl } };

    ghost begun_members = { λ p q m. Unit {0} };

    ghost view_members = { λ p m. value_members m.entries };

    ghost members_grow_lawfully = { record { sound_still = λ p q i h s b. tt; begun_still = λ p q r h b k. tt; shown_still = λ p q r h b k. refl } };

    fn boolean(value: bool) -> Value<'a> {
        Value::Boolean(value)
    }

    fn whole(number: i64) -> Value<'a> {
        Value::Whole(i128::from(number))
    }

    fn timestamp(value: DateTime) -> Value<'a> {
        Value::Instant(value)
    }

    fn null() -> Value<'a> {
        Value::Null
    }

    fn text(&mut self, content: CowStr<'a, Global>) -> Result<Value<'a>, SerdeError> {
        Ok(Value::Text(content))
    }

    fn bytes(&mut self, content: CowSlice<'a, u8, Global>) -> Result<Value<'a>, SerdeError> {
        Ok(Value::Bytes(content))
    }

    fn big_integer(&mut self, number: i128) -> Result<Value<'a>, SerdeError> {
        Ok(Value::Whole(number))
    }

    fn decimal(&mut self, mantissa: i128, exponent: i64) -> Result<Value<'a>, SerdeError> {
        Ok(Value::Decimal(mantissa, exponent))
    }

    fn document(&mut self, value: Document) -> Result<Value<'a>, SerdeError> {
        Ok(Value::Document(value))
    }

    fn no_elements(&self, alloc: Global) -> Vec<Value<'a>> {
        Vec::new(alloc)
    }

    fn push_element(
        &mut self,
        elements: &mut Vec<Value<'a>>,
        value: Value<'a>,
    ) -> Result<(), SerdeError> {
        elements.push(value)?;
        Ok(())
    }

    fn list(&mut self, elements: Vec<Value<'a>>) -> Result<Value<'a>, SerdeError> {
        Ok(Value::List(elements))
    }

    fn no_entries(&self, alloc: Global) -> BTreeMap<String, Value<'a>> {
        BTreeMap::new(alloc)
    }

    fn set_entry(
        &mut self,
        alloc: Global,
        entries: &mut BTreeMap<String, Value<'a>>,
        key: CowStr<'a, Global>,
        value: Value<'a>,
    ) -> Result<(), SerdeError> {
        entries.insert(key.into_owned(alloc)?, value)?;
        Ok(())
    }

    fn map(
        &mut self,
        _alloc: Global,
        entries: BTreeMap<String, Value<'a>>,
    ) -> Result<Value<'a>, SerdeError> {
        Ok(Value::Map(entries))
    }

    fn no_members(&self, alloc: Global) -> BTreeMap<u32, Value<'a>> {
        BTreeMap::new(alloc)
    }

    fn set_member(
        &mut self,
        members: &mut BTreeMap<u32, Value<'a>>,
        index: u32,
        value: Value<'a>,
    ) -> Result<(), SerdeError> {
        members.insert(index, value)?;
        Ok(())
    }

    fn structure(
        &mut self,
        _alloc: Global,
        members: BTreeMap<u32, Value<'a>>,
    ) -> Result<Value<'a>, SerdeError> {
        Ok(Value::Structure(members))
    }

    fn union(
        &mut self,
        alloc: Global,
        index: u32,
        value: Value<'a>,
    ) -> Result<Value<'a>, SerdeError> {
        Ok(Value::Union(index, Box::new(alloc, value)?))
    }

    #[inline(always)]
    fn part<'v>(&'v self, tree: &'v Value<'a>) -> Part<'v, Value<'a>> {
        match tree {
            Value::Boolean(value) => Part::Boolean(*value),
            Value::Whole(number) => Part::Whole(*number),
            Value::Text(content) => Part::Text(content.as_str()),
            Value::Bytes(content) => Part::Bytes(content.as_slice()),
            Value::Decimal(mantissa, exponent) => Part::Decimal(*mantissa, *exponent),
            Value::Instant(value) => Part::Timestamp(*value),
            Value::List(elements) => Part::List(elements.as_slice()),
            Value::Map(entries) => Part::Map(Entries::Map(entries)),
            Value::Structure(members) => Part::Structure(Members::Map(members)),
            Value::Union(index, value) => Part::Union(*index, &**value),
            Value::Null => Part::Null,
            Value::Document(value) => Part::Document(value),
        }
    }

    // No value is kept with its key.
    fn key<'v>(&'v self, _tree: &'v Value<'a>) -> &'v str {
        ""
    }

    // No value is kept with its position.
    fn position(_tree: &Value<'a>) -> u32 {
        0
    }
}
