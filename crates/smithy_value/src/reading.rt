//! Reading a value tree from any wire.
ghost use Rattle.std.specs.Prelude.{◌≡◌, Some, true, false, IfOk, OnErr};
ghost use Rattle.smithy_declarations.specs.Table.{type_of, IsStructure, IsUnion, IsList, IsMap};
ghost use Rattle.smithy_shapes.specs.Site.{site_of, kind_at};
ghost use Rattle.smithy_schema.specs.Nodes.{nodes};
ghost use Rattle.smithy_schema.specs.Reading.{HaveBytes};
ghost use Rattle.smithy_value.specs.ReadTree.{ReadsBy, ReadsUnder, ReadsTree};
ghost use Rattle.smithy_value.specs.View.{view};
ghost use Rattle.smithy_value.specs.Private.Leaves.{IsLeaf, IsRare};
ghost use Rattle.smithy_value.specs.Private.Items.{ReadsItem, ReadsAnyNull};

use crate::borrowing::Borrowing;
use crate::runs::read_run;
use crate::tree::Trees;
use crate::value::Value;
use crate::value_trees::ValueTrees;
use smithy_schema::{
    BorrowDeserializer, PieceDeserializer, Schema, SerdeError, ShapeDeserializer, ShapeType, Step,
};
use std::alloc::Global;

/// Reads the value of the schema that is due, whatever the wire. Its texts and bytes borrow from the input of the reader, which they
/// may outlive. A null of a member is as good as not there: it is dropped, also where the codec hands it on. With all values inside of
/// it, the value has no more than the bytes that were read, or one more where the input ends. After an error the reader has failed.
pub fn read_value<'a, D: BorrowDeserializer<'a>>(
    alloc: Global,
    source: &mut D,
    schema: &Schema<'_>,
) -> Result<Value<'a>, SerdeError>
    requires due { (D.state source.old).due ≡ true }
    ensures same { D.settings source.new ≡ D.settings source.old }
    ensures reads { ReadsUnder D.ShapeDeserializer (D.with_nulls false (D.settings source.old)) source.old source.new (site_of schema.now) view result }
    ensures broken { OnErr result ((D.state source.new).failed ≡ true) }
    ensures few { IfOk result (λ value. HaveBytes (D.state source.old).input (D.state source.old).at (D.state source.new).at (nodes (view value))) }
{
    let dispatched = source.dispatch_null_members(false);
    let value = read_borrowed(alloc, source, schema);
    source.dispatch_null_members(dispatched);
    value
}

// The same under the settings as they are.
fn read_borrowed<'a, D: BorrowDeserializer<'a>>(
    alloc: Global,
    source: &mut D,
    schema: &Schema<'_>,
) -> Result<Value<'a>, SerdeError>
    requires due { (D.state source.old).due ≡ true }
    ensures same { D.settings source.new ≡ D.settings source.old }
    ensures reads { ReadsBy D.ShapeDeserializer source.old source.new (site_of schema.now) view result }
    ensures broken { OnErr result ((D.state source.new).failed ≡ true) }
    ensures few { IfOk result (λ value. HaveBytes (D.state source.old).input (D.state source.old).at (D.state source.new).at (nodes (view value))) }
{
    let mut texts = Borrowing::<'_, 'a, D>::new(source);
    read_through(alloc, &mut texts, schema)
}

// The same through a reader that names no lifetime in its bound.
fn read_through<'a, D: BorrowDeserializer<'a>>(
    alloc: Global,
    texts: &mut Borrowing<'_, 'a, D>,
    schema: &Schema<'_>,
) -> Result<Value<'a>, SerdeError>
    requires due { (D.state texts.old.source.now).due ≡ true }
    ensures same_reference { texts.new.source.ghost_name ≡ texts.old.source.ghost_name }
    ensures same { D.settings texts.new.source.now ≡ D.settings texts.old.source.now }
    ensures reads { ReadsBy D.ShapeDeserializer texts.old.source.now texts.new.source.now (site_of schema.now) view result }
    ensures broken { OnErr result ((D.state texts.new.source.now).failed ≡ true) }
{
    let mut trees = ValueTrees::new();
    read_tree::<ValueTrees<'a>, Borrowing<'_, 'a, D>>(alloc, texts, &mut trees, schema)
}

/// Reads the value of the schema that is due as a tree of any store, whatever the wire. The store is one of the reader's input. After
/// an error the reader has failed.
#[inline(always)]
pub fn read_tree<P: Trees, D: PieceDeserializer<Text = P::Text, Bytes = P::Bytes>>(
    alloc: Global,
    source: &mut D,
    trees: &mut P,
    schema: &Schema<'_>,
) -> Result<P::Tree, SerdeError>
    requires due { (D.state source.old).due ≡ true }
    requires sound { P.sound trees.old (D.state source.old).input }
    ensures tree { ReadsTree D.ShapeDeserializer P.keeps P.stands P.view source.old source.new trees.old trees.new (site_of schema.now) result }
    ensures broken { OnErr result ((D.state source.new).failed ≡ true) }
{
    match read_part::<P, D>(alloc, source, trees, schema) {
        Ok(tree) => Ok(tree),
        Err(error) => {
            source.fail();
            Err(error)
        }
    }
}

// Reads the value that is due. Where the store lacks memory for it, the reader goes on behind what was read.
#[cycle(read)]
#[inline(always)]
fn read_part<P: Trees, D: PieceDeserializer<Text = P::Text, Bytes = P::Bytes>>(
    alloc: Global,
    source: &mut D,
    trees: &mut P,
    schema: &Schema<'_>,
) -> Result<P::Tree, SerdeError>
    requires due { (D.state source.old).due ≡ true }
    requires sound { P.sound trees.old (D.state source.old).input }
    ensures { ReadsTree D.ShapeDeserializer P.keeps P.stands P.view source.old source.new trees.old trees.new (site_of schema.now) result }
{
    match schema.shape_type() {
        ShapeType::Structure => read_structure::<P, D>(alloc, source, trees, schema),
        ShapeType::Union => read_union::<P, D>(alloc, source, trees, schema),
        ShapeType::List => read_list::<P, D>(alloc, source, trees, schema),
        ShapeType::Map => read_map::<P, D>(alloc, source, trees, schema),
        ShapeType::Boolean
        | ShapeType::Byte
        | ShapeType::Short
        | ShapeType::Integer
        | ShapeType::Long
        | ShapeType::String
        | ShapeType::Blob
        | ShapeType::BigInteger
        | ShapeType::BigDecimal
        | ShapeType::Timestamp
        | ShapeType::Document => read_leaf::<P, D>(source, trees, schema),
    }
}

// Reads the value of the schema that is due, where it isn't a container.
#[inline(always)]
fn read_leaf<P: Trees, D: PieceDeserializer<Text = P::Text, Bytes = P::Bytes>>(
    source: &mut D,
    trees: &mut P,
    schema: &Schema<'_>,
) -> Result<P::Tree, SerdeError>
    requires due { (D.state source.old).due ≡ true }
    requires sound { P.sound trees.old (D.state source.old).input }
    requires leaf { IsLeaf (type_of (kind_at (site_of schema.now))) }
    ensures { ReadsTree D.ShapeDeserializer P.keeps P.stands P.view source.old source.new trees.old trees.new (site_of schema.now) result }
{
    match schema.shape_type() {
        ShapeType::Boolean => Ok(P::boolean(source.read_boolean(schema)?)),
        ShapeType::Byte => Ok(P::whole(i64::from(source.read_byte(schema)?))),
        ShapeType::Short => Ok(P::whole(i64::from(source.read_short(schema)?))),
        ShapeType::Integer => Ok(P::whole(i64::from(source.read_integer(schema)?))),
        ShapeType::Long => Ok(P::whole(source.read_long(schema)?)),
        ShapeType::String => trees.text(source.take_text(schema)?),
        ShapeType::Blob => trees.bytes(source.take_bytes(schema)?),
        ShapeType::BigInteger
        | ShapeType::BigDecimal
        | ShapeType::Timestamp
        | ShapeType::Document => read_out_of_line::<P, D>(source, trees, schema),
        ShapeType::List | ShapeType::Map | ShapeType::Structure | ShapeType::Union => {
            unreachable!()
        }
    }
}

// Reads the value of the schema that is due, where it is of a kind that few tables have: a big number, an instant or a document.
// What these reads hold on the stack stands in a call of its own, so that the calls for containers need no room for it.
#[inline(never)]
fn read_out_of_line<P: Trees, D: PieceDeserializer<Text = P::Text, Bytes = P::Bytes>>(
    source: &mut D,
    trees: &mut P,
    schema: &Schema<'_>,
) -> Result<P::Tree, SerdeError>
    requires due { (D.state source.old).due ≡ true }
    requires sound { P.sound trees.old (D.state source.old).input }
    requires rare { IsRare (type_of (kind_at (site_of schema.now))) }
    ensures { ReadsTree D.ShapeDeserializer P.keeps P.stands P.view source.old source.new trees.old trees.new (site_of schema.now) result }
{
    match schema.shape_type() {
        ShapeType::BigInteger => match source.read_big_integer(schema)?.to_i128() {
            Ok(number) => trees.big_integer(number),
            Err(_) => unreachable!(),
        },
        ShapeType::BigDecimal => match source.read_big_decimal(schema)?.to_parts() {
            Ok((mantissa, exponent)) => trees.decimal(mantissa, exponent),
            Err(_) => unreachable!(),
        },
        ShapeType::Timestamp => Ok(P::timestamp(source.read_timestamp(schema)?)),
        ShapeType::Document => trees.document(source.read_document(schema)?),
        ShapeType::Boolean
        | ShapeType::Byte
        | ShapeType::Short
        | ShapeType::Integer
        | ShapeType::Long
        | ShapeType::String
        | ShapeType::Blob
        | ShapeType::List
        | ShapeType::Map
        | ShapeType::Structure
        | ShapeType::Union => unreachable!(),
    }
}

#[cycle(read)]
#[inline(never)]
fn read_structure<P: Trees, D: PieceDeserializer<Text = P::Text, Bytes = P::Bytes>>(
    alloc: Global,
    source: &mut D,
    trees: &mut P,
    schema: &Schema<'_>,
) -> Result<P::Tree, SerdeError>
    requires due { (D.state source.old).due ≡ true }
    requires sound { P.sound trees.old (D.state source.old).input }
    requires place { IsStructure (kind_at (site_of schema.now)) }
    ensures { ReadsTree D.ShapeDeserializer P.keeps P.stands P.view source.old source.new trees.old trees.new (site_of schema.now) result }
{
    source.open_struct(schema)?;
    let mut members = trees.no_members(alloc);
    loop {
        match source.next_member(schema)? {
            Step::Member(member) => {
                let Some(index) = member.member_index() else {
                    unreachable!()
                };
                let value = read_part::<P, D>(alloc, source, trees, &member)?;
                trees.set_member(&mut members, index, value)?;
            }
            Step::Unknown => source.skip_value()?,
            Step::End => return trees.structure(alloc, members),
        }
    }
}

#[cycle(read)]
#[inline(never)]
fn read_union<P: Trees, D: PieceDeserializer<Text = P::Text, Bytes = P::Bytes>>(
    alloc: Global,
    source: &mut D,
    trees: &mut P,
    schema: &Schema<'_>,
) -> Result<P::Tree, SerdeError>
    requires due { (D.state source.old).due ≡ true }
    requires sound { P.sound trees.old (D.state source.old).input }
    requires place { IsUnion (kind_at (site_of schema.now)) }
    ensures { ReadsTree D.ShapeDeserializer P.keeps P.stands P.view source.old source.new trees.old trees.new (site_of schema.now) result }
{
    source.open_struct(schema)?;
    let Step::Member(member) = source.next_member(schema)? else {
        source.fail();
        return Err(SerdeError::InvalidInput);
    };
    let Some(index) = member.member_index() else {
        unreachable!()
    };
    let value = read_part::<P, D>(alloc, source, trees, &member)?;
    let Step::End = source.next_member(schema)? else {
        source.fail();
        return Err(SerdeError::InvalidInput);
    };
    trees.union(alloc, index, value)
}

#[cycle(read)]
#[inline(never)]
fn read_list<P: Trees, D: PieceDeserializer<Text = P::Text, Bytes = P::Bytes>>(
    alloc: Global,
    source: &mut D,
    trees: &mut P,
    schema: &Schema<'_>,
) -> Result<P::Tree, SerdeError>
    requires due { (D.state source.old).due ≡ true }
    requires sound { P.sound trees.old (D.state source.old).input }
    requires place { IsList (kind_at (site_of schema.now)) }
    ensures { ReadsTree D.ShapeDeserializer P.keeps P.stands P.view source.old source.new trees.old trees.new (site_of schema.now) result }
{
    source.open_list(schema)?;
    let sparse = schema.is_sparse();
    let Some(element) = schema.member() else {
        unreachable!()
    };
    let kind = element.shape_type();
    let mut elements = trees.no_elements(alloc);
    read_run::<P, D>(source, trees, kind, &element, &mut elements)?;
    while source.next_element()? {
        let item = read_item::<P, D>(alloc, source, trees, sparse, kind, &element)?;
        trees.push_element(&mut elements, item)?;
        read_run::<P, D>(source, trees, kind, &element, &mut elements)?;
    }
    trees.list(elements)
}

#[cycle(read)]
#[inline(never)]
fn read_map<P: Trees, D: PieceDeserializer<Text = P::Text, Bytes = P::Bytes>>(
    alloc: Global,
    source: &mut D,
    trees: &mut P,
    schema: &Schema<'_>,
) -> Result<P::Tree, SerdeError>
    requires due { (D.state source.old).due ≡ true }
    requires sound { P.sound trees.old (D.state source.old).input }
    requires place { IsMap (kind_at (site_of schema.now)) }
    ensures { ReadsTree D.ShapeDeserializer P.keeps P.stands P.view source.old source.new trees.old trees.new (site_of schema.now) result }
{
    source.open_map(schema)?;
    let sparse = schema.is_sparse();
    let Some(inner) = schema.member() else {
        unreachable!()
    };
    let kind = inner.shape_type();
    let mut entries = trees.no_entries(alloc);
    while let Some(key) = source.take_key()? {
        let value = read_item::<P, D>(alloc, source, trees, sparse, kind, &inner)?;
        trees.set_entry(alloc, &mut entries, key, value)?;
    }
    trees.map(alloc, entries)
}

// Reads the element of a list or the value of a map's entry that is due. It may be a null where the list or the map is sparse.
#[cycle(read)]
#[inline(always)]
fn read_item<P: Trees, D: PieceDeserializer<Text = P::Text, Bytes = P::Bytes>>(
    alloc: Global,
    source: &mut D,
    trees: &mut P,
    sparse: bool,
    kind: ShapeType,
    schema: &Schema<'_>,
) -> Result<P::Tree, SerdeError>
    requires due { (D.state source.old).due ≡ true }
    requires sound { P.sound trees.old (D.state source.old).input }
    requires kind { Some kind ≡ type_of (kind_at (site_of schema.now)) }
    ensures { ReadsItem D.ShapeDeserializer P.keeps P.stands P.view source.old source.new trees.old trees.new sparse (site_of schema.now) result }
{
    if read_any_null(source, sparse)? {
        return Ok(P::null());
    }
    if let ShapeType::Long = kind {
        // A list may have millions of longs, so each is read here, without the answer of a call for any kind.
        return Ok(P::whole(source.read_long(schema)?));
    }
    read_part::<P, D>(alloc, source, trees, schema)
}

// Reads a null if one is due where nulls are allowed: whether there was one.
#[inline(always)]
fn read_any_null<D: ShapeDeserializer>(source: &mut D, sparse: bool) -> Result<bool, SerdeError>
    ensures same { D.settings source.new ≡ D.settings source.old }
    ensures null { ReadsAnyNull (D.reading (D.settings source.old)) sparse (D.state source.old) (D.state source.new) result }
{
    if sparse && source.is_null() {
        source.read_null()?;
        return Ok(true);
    }
    Ok(false)
}
