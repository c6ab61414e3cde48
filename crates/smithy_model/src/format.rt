//! The two forms of models, and what a `locationName` of the second names.

/// The form of a model's text, and the naming of its protocol.
#[derive(Clone, Copy)]
pub(crate) enum Format {
    /// A Smithy 2.0 model as JSON.
    Smithy,
    /// A `service-2.json` of a protocol with JSON bodies.
    Json,
    /// A `service-2.json` of a protocol with XML bodies.
    Xml,
    /// A `service-2.json` of the protocol of EC2.
    Ec2,
}
