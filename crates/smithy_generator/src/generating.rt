//! The input that a number generates.
ghost use Rattle.std.specs.Prelude.{◌≡◌, ◌++◌, OnOk, IfOk, false, decimal};
ghost use Rattle.smithy_declarations.specs.Table.{shape_place};
ghost use Rattle.smithy_json_values.specs.Codec.{strict_settings};
ghost use Rattle.smithy_json_values.specs.Spelling.{json_spells};
ghost use Rattle.smithy_generator.specs.GeneratedShapes.{generated_shapes, generated_root, generated_value};
ghost use Rattle.smithy_generator.specs.Generated.{next_number, item_of, comma_before, generated, generated_table};

use itoa::Buffer;
use std::alloc::{AllocError, Global};

/// The text of the table that directs the input. The root is `S`.
pub fn table_text() -> &'static [u8]
    ensures { result.now ≡ generated_table }
{
    b"map Tags string\nstructure Item\nmember id long\nmember name string\nmember at timestamp\nmember tags Tags\nlist Items Item\nstructure S\nmember items Items\n"
}

// The number behind x.
fn next_number(x: u64) -> u64
    ensures { result ≡ next_number x }
{
    x.wrapping_mul(6_364_136_223_846_793_005)
        .wrapping_add(1_442_695_040_888_963_407)
}

// Adds some text, and a number behind it.
fn push_number(text: &mut Vec<u8>, before: &[u8], number: u64) -> Result<(), AllocError>
    ensures { OnOk result (text.new.items ≡ text.old.items ++ before.now ++ decimal number) }
{
    text.extend_from_slice(before)?;
    text.extend_from_slice(Buffer::new().format(number).as_bytes())
}

// Adds the item that a number gives.
fn push_item(text: &mut Vec<u8>, x: u64) -> Result<(), AllocError>
    ensures { OnOk result (text.new.items ≡ text.old.items ++ item_of x) }
{
    push_number(text, b"{\"id\": ", x % 1000)?;
    push_number(text, b", \"name\":\"n", x / 1000 % 1000)?;
    push_number(text, b"\", \"at\":", x / 1_000_000 % 1_000_000)?;
    push_number(text, b", \"tags\":{\"b\":\"x\",\"a\":\"", x % 1000 % 10)?;
    text.extend_from_slice(b"\"}}")
}

// Adds the item behind so many others, which a number gives.
fn push_further(text: &mut Vec<u8>, earlier: u32, x: u64) -> Result<(), AllocError>
    ensures { OnOk result (text.new.items ≡ text.old.items ++ (comma_before earlier ++ item_of x)) }
{
    if earlier > 0 {
        text.push(b',')?;
    }
    push_item(text, x)
}

/// The input of so many items that the seed generates: a JSON text of a value of the root.
#[tactic(auto, using(crate::proofs::Meanings::generated_spells), unfolding(crate::specs::Generated::items_to, crate::specs::Generated::number_at))]
pub fn generate(alloc: Global, seed: u64, count: u32) -> Result<Vec<u8>, AllocError>
    ensures text { IfOk result (λ text. text.items ≡ generated seed count) }
    ensures spelled { json_spells (strict_settings false) generated_shapes (shape_place generated_root) (generated seed count) (generated_value seed count) }
{
    let mut text = Vec::new(alloc);
    text.extend_from_slice(b"{\"items\":[")?;
    let mut x = seed;
    let mut made = 0;
    while made < count {
        x = next_number(x);
        push_further(&mut text, made, x)?;
        made += 1;
    }
    text.extend_from_slice(b"]}")?;
    Ok(text)
}
