//! The kinds of shapes.
ghost use Rattle.std.specs.Prelude.{◌≡◌};
ghost use Rattle.smithy_declarations.specs.Table.{scalar_type};

/// A shape that has no members and is written as one scalar.
#[derive(Clone, Copy, Debug, PartialEq, Eq)]
pub enum Scalar {
    /// False or true.
    Boolean,
    /// A whole number from -2^7 to 2^7-1.
    Byte,
    /// A whole number from -2^15 to 2^15-1.
    Short,
    /// A whole number from -2^31 to 2^31-1.
    Integer,
    /// A whole number from -2^63 to 2^63-1.
    Long,
    /// A text of Unicode scalar values.
    String,
    /// Any bytes.
    Blob,
    /// An instant, whose seconds from 1970-01-01T00:00:00Z on, rounded down, are a number of 64 bits.
    Timestamp,
    /// A whole number from -2^127 to 2^127-1.
    BigInteger,
    /// A mantissa from -2^127 to 2^127-1, times ten to an exponent from -(2^63-1) to 2^63-1.
    BigDecimal,
}

impl Scalar {
    /// The kind of a shape that is this scalar.
    pub fn shape_type(self) -> ShapeType
        ensures { result ≡ scalar_type self }
    {
        match self {
            Scalar::Boolean => ShapeType::Boolean,
            Scalar::Byte => ShapeType::Byte,
            Scalar::Short => ShapeType::Short,
            Scalar::Integer => ShapeType::Integer,
            Scalar::Long => ShapeType::Long,
            Scalar::String => ShapeType::String,
            Scalar::Blob => ShapeType::Blob,
            Scalar::Timestamp => ShapeType::Timestamp,
            Scalar::BigInteger => ShapeType::BigInteger,
            Scalar::BigDecimal => ShapeType::BigDecimal,
        }
    }
}

/// The kind of a shape.
#[derive(Clone, Copy, Debug, PartialEq, Eq)]
pub enum ShapeType {
    Boolean,
    Byte,
    Short,
    Integer,
    Long,
    String,
    Blob,
    Timestamp,
    BigInteger,
    BigDecimal,
    Document,
    List,
    Map,
    Structure,
    Union,
}

/// How instants are written as text.
#[derive(Clone, Copy, Debug, PartialEq, Eq)]
pub enum TimestampFormat {
    EpochSeconds,
    DateTime,
    HttpDate,
}

/// A declaration of a table, by its number, from 0.
#[derive(Clone, Copy, Debug, PartialEq, Eq)]
pub struct ShapeRef(pub u32);
