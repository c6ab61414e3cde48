//! Writing a form as a schema directs.
ghost use Rattle.std.specs.Prelude.{◌≡◌, ◌↔◌, ◌++◌, ◌∷◌, [], take, length, true, false, OnOk, IfOk, IfErr, IsErr, IsErrOf, Ok, Err, ◌&&◌};
ghost use Rattle.smithy_schema.specs.declared.error.SerdeError.TheVariants.{Failed, NoMemory, Unwritable};
ghost use Rattle.smithy_schema.specs.Errors.{IsFault};
ghost use Rattle.smithy_shapes.specs.Site.{site_of};
ghost use Rattle.smithy_schema.specs.Writing.{WritesEvent, after_value, after_text, document_of};
ghost use Rattle.smithy_types.specs.Document.{whole_document};
ghost use Rattle.smithy_types.specs.DocumentView.{document_view};
ghost use Rattle.smithy_query.specs.Form.{pair_text};
ghost use Rattle.smithy_query_codec.specs.Leaves.{form_at};
ghost use Rattle.smithy_query_codec.specs.Writing.{QueryState, fresh_state, empty_leaf, child_count, child_prefix, has_room as is_room, is_placed as is_place, is_key_due as is_key_place, wrote, allowed, where_taken, query_after};
ghost use Rattle.smithy_query_codec.specs.Serializing.{mark_of, state_of, has_failed};

use crate::containers::{
    Restore, counted, has_room, is_at_member, is_key_due, is_placed, member_flatness,
    member_length, push_child,
};
use crate::names::{element_name, key_name, value_name};
use crate::path::{front, push_head, push_inner, push_pair};
use itoa::Buffer;
use smithy_schema::{
    FinishSerializer, Schema, SerdeError, ShapeSerializer, TimestampFormat, instant_text,
};
use smithy_texts::push_decimal;
use smithy_types::{BigDecimal, BigInteger, DateTime, Document, base64};
use smithy_wire::{Container, OpenContainers};
use std::alloc::{AllocError, Global};

/// Writes one form: Action, Version, and the leaves of a value, each as `&`, its path, `=` and its text.
#[derive(Debug, Drop)]
pub struct QueryShapeSerializer {
    out: Vec<u8>,
    // The path of the innermost container's parts.
    prefix: Vec<u8>,
    // The names of keys and of values of each open map.
    names: Vec<u8>,
    // How many elements or entries the innermost list or map has.
    count: u64,
    containers: OpenContainers<Restore>,
}

// The form of instants at a place: a date-time where it has none.
fn form_at(schema: &Schema<'_>) -> TimestampFormat
    ensures { result ≡ form_at (site_of schema.now) }
{
    schema
        .timestamp_format()
        .unwrap_or(TimestampFormat::DateTime)
}

impl QueryShapeSerializer {
    /// A serializer of a form of this action and version, to which no leaf is written yet.
    pub fn new(
        alloc: Global,
        action: &str,
        version: &str,
    ) -> Result<QueryShapeSerializer, AllocError>
        ensures state { IfOk result (λ s. state_of s ≡ fresh_state action.now version.now) }
        ensures sound { IfOk result (λ s. has_failed s ≡ false) }
    {
        let mut out = Vec::new(alloc);
        push_head(&mut out, action, version)?;
        Ok(QueryShapeSerializer {
            out,
            prefix: Vec::new(alloc),
            names: Vec::new(alloc),
            count: 0,
            containers: OpenContainers::new(alloc),
        })
    }

    // Goes to the next child: to its path, and to the number of parts with it.
    fn step(&mut self, schema: &Schema<'_>) -> Result<(), AllocError>
        requires room { is_room (state_of self.old).opens (state_of self.old).count ≡ true }
        ensures ok { OnOk result (state_of self.new ≡ record (state_of self.old) {
          prefix = child_prefix (state_of self.old) (site_of schema.now).view;
          count = child_count (state_of self.old).opens (state_of self.old).count;
        }) }
        ensures broken { has_failed self.new ≡ has_failed self.old }
    {
        push_child(
            &mut self.prefix,
            &self.names,
            &self.containers,
            self.count,
            schema,
        )?;
        self.count = counted(&self.containers, self.count);
        Ok(())
    }

    // Begins a container where a value is due, and gives what is to be restored when it ends. The serializer counts as failed
    // until the container is among the open ones.
    fn begin_container(&mut self, schema: &Schema<'_>) -> Result<Restore, SerdeError>
        ensures failed { IsErrOf result Failed ↔ (has_failed self.old ≡ true) }
        ensures broken { has_failed self.new ≡ true }
        ensures mark { IfOk result (λ f. mark_of f ≡ record {
          prefix_length = length (state_of self.old).prefix;
          count = child_count (state_of self.old).opens (state_of self.old).count;
          out_length = length (state_of self.old).out;
          member_length = None;
          names_length = length (state_of self.old).names;
          key_length = 0;
        }) }
        ensures ok { OnOk result (state_of self.new ≡ record (state_of self.old) {
          prefix = child_prefix (state_of self.old) (site_of schema.now).view;
          count = 0;
          opens = (state_of self.new).opens;
        }) }
        ensures room { OnOk result (is_room (state_of self.old).opens (state_of self.old).count ≡ true) }
        ensures taken { OnOk result (after_value (state_of self.old).opens ≡ Ok (state_of self.new).opens) }
        ensures refused { IfErr result (λ e. IsFault e → allowed (is_room (state_of self.old).opens (state_of self.old).count) (after_value (state_of self.old).opens) ≡ Err e) }
    {
        self.containers.begin()?;
        if !has_room(&self.containers, self.count) {
            return Err(SerdeError::Unwritable);
        }
        let prefix_length = self.prefix.len();
        self.step(schema)?;
        let count = self.count;
        self.containers.pass_value()?;
        self.count = 0;
        Ok(Restore {
            prefix_length,
            count,
            out_length: self.out.len(),
            member_length: None,
            names_length: self.names.len(),
            key_length: 0,
        })
    }

    // Goes back to what stood before a container was begun.
    fn restore(&mut self, ended: Restore)
        ensures ok { state_of self.new ≡ record (state_of self.old) {
          prefix = take (mark_of ended).prefix_length (state_of self.old).prefix;
          names = take (mark_of ended).names_length (state_of self.old).names;
          count = (mark_of ended).count;
        } }
        ensures broken { has_failed self.new ≡ has_failed self.old }
    {
        self.prefix.truncate(ended.prefix_length);
        self.names.truncate(ended.names_length);
        self.count = ended.count;
    }

    // Writes a leaf under the path of the next child, which counts then.
    #[tactic(auto, using(crate::proofs::PathLemmas::cut_back))]
    fn push_leaf(&mut self, schema: &Schema<'_>, text: &str) -> Result<(), AllocError>
        requires room { is_room (state_of self.old).opens (state_of self.old).count ≡ true }
        ensures ok { OnOk result (state_of self.new ≡ record (state_of self.old) {
          out = (state_of self.old).out ++ pair_text (child_prefix (state_of self.old) (site_of schema.now).view) text.now;
          count = child_count (state_of self.old).opens (state_of self.old).count;
        }) }
        ensures broken { has_failed self.new ≡ has_failed self.old }
    {
        let length = self.prefix.len();
        self.step(schema)?;
        push_pair(&mut self.out, &self.prefix, text)?;
        self.prefix.truncate(length);
        Ok(())
    }

    // Writes the leaf of a list that is a member's value and wrote nothing.
    fn push_empty_leaf(&mut self, ended: &Restore) -> Result<(), AllocError>
        ensures ok { OnOk result (state_of self.new ≡ record (state_of self.old) {
          out = (state_of self.old).out ++ empty_leaf (state_of self.old) (mark_of ended.now ∷ []);
        }) }
        ensures broken { has_failed self.new ≡ has_failed self.old }
    {
        match ended.member_length {
            Some(length) if self.out.len() == ended.out_length => {
                push_pair(&mut self.out, front(&self.prefix, length), "")
            }
            _ => Ok(()),
        }
    }

    // Writes a leaf where a value is due.
    fn write_text(&mut self, schema: &Schema<'_>, text: &str) -> Result<(), SerdeError>
        ensures failed { IsErrOf result Failed ↔ (has_failed self.old ≡ true) }
        ensures broken { IsErr result ↔ (has_failed self.new ≡ true) }
        ensures ok { OnOk result (where_taken (wrote (state_of self.old) (site_of schema.now).view text.now)
            (allowed (is_place (state_of self.old).opens (site_of schema.now).view && is_room (state_of self.old).opens (state_of self.old).count)
            (after_value (state_of self.old).opens)) ≡ Ok (state_of self.new)) }
        ensures refused { IfErr result (λ e. IsFault e
            → allowed (is_place (state_of self.old).opens (site_of schema.now).view && is_room (state_of self.old).opens (state_of self.old).count)
            (after_value (state_of self.old).opens) ≡ Err e) }
    {
        self.containers.begin()?;
        if !is_placed(&self.containers, schema) {
            return Err(SerdeError::Unwritable);
        }
        if !has_room(&self.containers, self.count) {
            return Err(SerdeError::Unwritable);
        }
        self.push_leaf(schema, text)?;
        self.containers.pass_value()?;
        self.containers.succeed();
        Ok(())
    }

    // Writes the key of an entry where one is due; its value is due then.
    fn write_key(&mut self, schema: &Schema<'_>, key: &str) -> Result<(), SerdeError>
        requires { is_key_place (state_of self.old).opens ≡ true }
        ensures failed { IsErrOf result Failed ↔ (has_failed self.old ≡ true) }
        ensures broken { IsErr result ↔ (has_failed self.new ≡ true) }
        ensures ok { OnOk result (where_taken (wrote (state_of self.old) (site_of schema.now).view key.now)
            (allowed (is_room (state_of self.old).opens (state_of self.old).count) (after_text (state_of self.old).opens)) ≡ Ok (state_of self.new)) }
        ensures refused { IfErr result (λ e. IsFault e
            → allowed (is_room (state_of self.old).opens (state_of self.old).count) (after_text (state_of self.old).opens) ≡ Err e) }
    {
        self.containers.begin()?;
        if !has_room(&self.containers, self.count) {
            return Err(SerdeError::Unwritable);
        }
        self.push_leaf(schema, key)?;
        self.containers.pass_text()?;
        self.containers.succeed();
        Ok(())
    }
}

impl ShapeSerializer for QueryShapeSerializer {
    ghost use Rattle.smithy_query_codec.specs.Nesting.{query_nests, query_grows};

    ghost State = { QueryState };

    ghost state = { state_of };

    ghost failed = { has_failed };

    ghost out = { λ s. s.out };

    ghost open_in = { λ s. s.opens };

    ghost after = { query_after };

    ghost grows = { query_grows };

    ghost nested = { query_nests };

    fn fail(&mut self) {
        self.containers.fail();
    }

    fn begin_struct(&mut self, schema: &Schema<'_>) -> Result<(), SerdeError> {
        let restore = self.begin_container(schema)?;
        self.containers.push(Container::Structure, restore)?;
        self.containers.succeed();
        Ok(())
    }

    fn end_struct(&mut self) -> Result<(), SerdeError> {
        self.containers.begin()?;
        let ended = self.containers.pop(Container::Structure)?;
        self.restore(ended);
        self.containers.succeed();
        Ok(())
    }

    fn begin_list(
        &mut self,
        schema: &Schema<'_>,
        _length: Option<usize>,
    ) -> Result<(), SerdeError> {
        let flatness = member_flatness(&self.containers, schema);
        let mut restore = self.begin_container(schema)?;
        restore.member_length = member_length(flatness, self.prefix.len());
        push_inner(&mut self.prefix, flatness, element_name(schema))?;
        self.containers.push(Container::List, restore)?;
        self.containers.succeed();
        Ok(())
    }

    fn end_list(&mut self) -> Result<(), SerdeError> {
        self.containers.begin()?;
        let ended = self.containers.pop(Container::List)?;
        self.push_empty_leaf(&ended)?;
        self.restore(ended);
        self.containers.succeed();
        Ok(())
    }

    fn begin_map(&mut self, schema: &Schema<'_>, _length: Option<usize>) -> Result<(), SerdeError> {
        let flatness = member_flatness(&self.containers, schema);
        let mut restore = self.begin_container(schema)?;
        let key = key_name(schema);
        restore.key_length = key.len();
        push_inner(&mut self.prefix, flatness, "entry")?;
        self.names.extend_from_slice(key.as_bytes())?;
        self.names.extend_from_slice(value_name(schema).as_bytes())?;
        self.containers.push(Container::MapAtKey, restore)?;
        self.containers.succeed();
        Ok(())
    }

    fn end_map(&mut self) -> Result<(), SerdeError> {
        self.containers.begin()?;
        let ended = self.containers.pop(Container::MapAtKey)?;
        self.restore(ended);
        self.containers.succeed();
        Ok(())
    }

    fn write_null(&mut self, _schema: &Schema<'_>) -> Result<(), SerdeError> {
        self.containers.begin()?;
        if !is_at_member(&self.containers) {
            return Err(SerdeError::Unwritable);
        }
        self.containers.succeed();
        Ok(())
    }

    fn write_boolean(&mut self, schema: &Schema<'_>, value: bool) -> Result<(), SerdeError> {
        self.write_text(schema, if value { "true" } else { "false" })
    }

    fn write_byte(&mut self, schema: &Schema<'_>, value: i8) -> Result<(), SerdeError> {
        self.write_long(schema, i64::from(value))
    }

    fn write_short(&mut self, schema: &Schema<'_>, value: i16) -> Result<(), SerdeError> {
        self.write_long(schema, i64::from(value))
    }

    fn write_integer(&mut self, schema: &Schema<'_>, value: i32) -> Result<(), SerdeError> {
        self.write_long(schema, i64::from(value))
    }

    fn write_long(&mut self, schema: &Schema<'_>, value: i64) -> Result<(), SerdeError> {
        let mut buffer = Buffer::new();
        self.write_text(schema, buffer.format(value))
    }

    fn write_string(&mut self, schema: &Schema<'_>, value: &str) -> Result<(), SerdeError> {
        if is_key_due(&self.containers) {
            self.write_key(schema, value)
        } else {
            self.write_text(schema, value)
        }
    }

    fn write_bytes(&mut self, schema: &Schema<'_>, value: &[u8]) -> Result<(), SerdeError> {
        self.containers.begin()?;
        let text = base64::encode(*self.out.allocator(), value)?;
        self.containers.succeed();
        self.write_text(schema, text.as_str())
    }

    fn write_i128(&mut self, schema: &Schema<'_>, value: i128) -> Result<(), SerdeError> {
        let mut buffer = Buffer::new();
        self.write_text(schema, buffer.format(value))
    }

    fn write_decimal(
        &mut self,
        schema: &Schema<'_>,
        mantissa: i128,
        exponent: i64,
    ) -> Result<(), SerdeError> {
        self.containers.begin()?;
        let mut text = String::new(*self.out.allocator());
        push_decimal(&mut text, mantissa, exponent)?;
        self.containers.succeed();
        self.write_text(schema, text.as_str())
    }

    fn write_big_integer(
        &mut self,
        schema: &Schema<'_>,
        value: &BigInteger,
    ) -> Result<(), SerdeError> {
        self.write_text(schema, value.as_ref())
    }

    fn write_big_decimal(
        &mut self,
        schema: &Schema<'_>,
        value: &BigDecimal,
    ) -> Result<(), SerdeError> {
        self.write_text(schema, value.as_ref())
    }

    fn write_timestamp(&mut self, schema: &Schema<'_>, value: &DateTime) -> Result<(), SerdeError> {
        self.containers.begin()?;
        let form = form_at(schema);
        let text = instant_text(*self.out.allocator(), form, value)?;
        self.containers.succeed();
        self.write_text(schema, text.as_str())
    }

    // A form has no documents. It takes no memory.
    fn write_document(&mut self, schema: &Schema<'_>, _value: &Document) -> Result<(), SerdeError>
        ensures writes { WritesEvent query_after (document_of (site_of schema.now) (whole_document (document_view _value.now))) (state_of self.old) (has_failed self.old) (state_of self.new) (has_failed self.new) result }
        ensures memory { IsErrOf result NoMemory → ⊥ }
    {
        self.containers.begin()?;
        if !is_placed(&self.containers, schema) {
            return Err(SerdeError::Unwritable);
        }
        if !has_room(&self.containers, self.count) {
            return Err(SerdeError::Unwritable);
        }
        if is_key_due(&self.containers) {
            return Err(SerdeError::Unwritable);
        }
        Err(SerdeError::Unsupported)
    }
}

impl FinishSerializer for QueryShapeSerializer {
    fn finish(mut self) -> Result<Vec<u8>, SerdeError> {
        self.containers.begin()?;
        if !self.containers.is_empty() {
            return Err(SerdeError::Unwritable);
        }
        Ok(self.out)
    }
}
