//! Members that may be null.

ghost use Rattle.std.specs.Prelude.{◌≡◌, ◌≢◌, Some, None, Ok, drop, IsErrAnd};
ghost use Rattle.cbor_item.specs.Item.{simple};
ghost use Rattle.cbor_item.specs.Kind.{kind_of};
ghost use Rattle.cbor_item.specs.WellFormed.{IsItemAt};
ghost use Rattle.cbor_item.specs.declared.kind.ItemType.{ItemType};
ghost use Rattle.cbor_item.specs.declared.kind.ItemType.TheVariants.{Null};
ghost use Rattle.smithy_cbor.specs.DecoderView.{input_of, position_of, Reads, IsRefusal, CallsWith};
ghost use Rattle.smithy_cbor.specs.Scalar.{null_value};
ghost use Rattle.smithy_cbor.specs.declared.error.DecodeKind.TheVariants.{Truncated};
ghost use Rattle.smithy_cbor.specs.declared.error.DeserializeError.{DeserializeError};

use crate::CborType;
use crate::decoder::Decoder;
use crate::error::DeserializeError;

/// Sets a member by `f`, or goes past a null and hands the builder back.
///
/// The error is that of `f`, most often `DeserializeError` itself.
pub fn set_optional<
    'b,
    B: Drop,
    E: From<DeserializeError> + Drop,
    F: Fn(B, &mut Decoder<'b>) -> Result<B, E> + Drop,
>(builder: B, decoder: &mut Decoder<'b>, f: F) -> Result<B, E>
    requires { F.IsAlwaysCallable f }
    ensures null { kind_of (drop (position_of decoder.old) (input_of decoder.old)) ≡ Some Null
        → (result ≡ Ok builder) × Reads (IsItemAt (simple null_value)) decoder.old decoder.new }
    ensures other { (t : ItemType) → kind_of (drop (position_of decoder.old) (input_of decoder.old)) ≡ Some t → t ≢ Null
        → CallsWith (λ shown left. F.post f builder shown result left) decoder.old decoder.new }
    ensures truncated { kind_of (drop (position_of decoder.old) (input_of decoder.old)) ≡ None
        → IsErrAnd result (λ e. (refusal : DeserializeError) × E.from_gives refusal e
        × IsRefusal (λ input at kind. kind ≡ Truncated) decoder.old refusal)
        × (decoder.new ≡ decoder.old) }
{
    if decoder.datatype()? != CborType::Null {
        return f(builder, decoder);
    }
    decoder.null()?;
    Ok(builder)
}
