//! The shapes of a model, as far as a table needs them. Texts are borrowed from the model's own.

/// A member of a structure or a union, the elements of a list, or the keys or the values of a map.
#[derive(Clone, Copy, Drop)]
pub struct Member<'a> {
    pub name: &'a str,
    /// The id of its target.
    pub target: &'a str,
    /// The number of its target among the shapes of the model.
    pub number: usize,
    /// `@jsonName`
    pub json_name: Option<&'a str>,
    /// `@xmlName`
    pub xml_name: Option<&'a str>,
    /// `@ec2QueryName`
    pub ec2_name: Option<&'a str>,
    /// `@xmlFlattened`
    pub is_flattened: bool,
    /// `@timestampFormat`
    pub time_format: Option<&'a str>,
    /// It is bound to headers, where the protocol has HTTP bindings.
    pub in_headers: bool,
    /// It is bound to the path or the query.
    pub in_request_line: bool,
    /// It is bound to the status code.
    pub in_status_line: bool,
    /// It is the whole body, where the protocol has HTTP bindings.
    pub is_payload: bool,
}

/// The keys and the values of a map.
#[derive(Clone, Copy, Drop)]
pub struct Entry<'a> {
    pub key: Member<'a>,
    pub value: Member<'a>,
}

/// What a shape is.
#[derive(Drop)]
pub enum Kind<'a> {
    /// A scalar but a float, or a document, by its name in a table.
    Simple(&'static str),
    /// A float, which no table has.
    Float,
    /// A stream of events.
    EventStream,
    Structure(Vec<Member<'a>>),
    Union(Vec<Member<'a>>),
    /// A list of such elements.
    List(Member<'a>),
    Map(Entry<'a>),
}

/// A shape under its id.
#[derive(Drop)]
pub struct Shape<'a> {
    pub id: &'a str,
    pub kind: Kind<'a>,
    /// The ids of the mixins that it takes in.
    pub mixins: Vec<&'a str>,
    /// `@sparse`
    pub is_sparse: bool,
    /// A list that a `service-2.json` flattens wherever it stands.
    pub is_flattened: bool,
    /// `@timestampFormat`
    pub time_format: Option<&'a str>,
    /// It is a mixin that keeps `@sparse` to itself.
    pub has_local_sparse: bool,
    /// It is a mixin that keeps `@timestampFormat` to itself.
    pub has_local_time: bool,
}

/// What an operation refers to.
#[derive(Clone, Copy, Drop)]
pub struct Reference<'a> {
    /// The id of a shape.
    pub target: &'a str,
    /// The number of this shape among those of the model.
    pub number: usize,
}

/// An operation under its id, with its structures.
#[derive(Drop)]
pub struct Operation<'a> {
    pub id: &'a str,
    pub input: Option<Reference<'a>>,
    pub output: Option<Reference<'a>>,
    pub errors: Vec<Reference<'a>>,
}

/// A model: its shapes and operations, in the order of its text.
#[derive(Drop)]
pub struct Model<'a> {
    pub shapes: Vec<Shape<'a>>,
    pub operations: Vec<Operation<'a>>,
    /// Members may travel outside of the body: each known protocol is `restJson1` or `restXml`.
    pub has_http_bindings: bool,
    /// Each known protocol is `ec2Query`.
    pub is_ec2: bool,
    /// It is a `service-2.json`.
    pub is_service_json: bool,
}
