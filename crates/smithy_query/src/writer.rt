//! Writers of forms. Each call adds its bytes to the end of a text.

ghost use Rattle.std.specs.Prelude.{◌≡◌, ◌<◌, ◌++◌, ◌∷◌, [], ℕ, List, Option, Some, None, suc, length, take, codes, string_bytes, option_map, unwrap_or, if◌then◌else◌, OnOk, OnErr, IfOk, IfErr, IsOk, Ok, is_some, true};
ghost use Rattle.std.specs.Borrow.{sem};
ghost use Rattle.std.specs.Cow.{cow_str_bytes};
ghost use Rattle.std.specs.Fmt.{decimal, signed_decimal};
ghost use Rattle.smithy_types.specs.Number.{whole_number};
ghost use Rattle.smithy_types.specs.PrimitiveText.{boolean_text};
ghost use Rattle.smithy_types.specs.WrittenDate.{date_text};
ghost use Rattle.smithy_instants.specs.declared.written_date.DateTimeFormatError.TheVariants.{OutOfRange, NoMemory};
ghost use Rattle.percent_encoding.specs.Percent.{percent_decode};
ghost use Rattle.smithy_query.specs.Percent.{encoded};
ghost use Rattle.smithy_query.specs.Split.{pairs_of};
ghost use Rattle.smithy_query.specs.Form.{pair_text, form_head};
ghost use Rattle.smithy_query.specs.Writer.{further, entry_path, empty_text, form_text, form_borrow, value_text, value_borrow, value_prefix, list_text, list_borrow, list_prefix, list_index, list_is_flat, list_member, next_element, map_text, map_borrow, map_prefix, map_index, map_is_flat, map_key_name, map_value_name, next_key, next_value, RestsWithoutForm, LendsFormText, LendsValueText, LendsElement, LendsEntry};
ghost use Rattle.smithy_query.specs.Private.Place.{IsWriterOf, counted, RestsWithoutValue, LendsFurther, LendsNextElement, LendsNextEntry};

use crate::pairs::{push_head, push_pair};
use crate::path::{joined, push_group, push_number, push_segment};
use itoa::Buffer;
use smithy_types::{DateTime, DateTimeFormatError, Format, Number};
use std::alloc::{AllocError, Global};
use std::borrow::CowStr;

/// A form that has begun with its action and version.
#[derive(Drop)]
pub struct QueryWriter<'a> {
    output: &'a mut String,
}

impl<'a> QueryWriter<'a> {
    /// Begins a form at the end of the text.
    pub fn new(
        output: &'a mut String,
        action: &str,
        version: &str,
    ) -> Result<QueryWriter<'a>, AllocError>
        ensures same_borrow { IfOk result (λ w. form_borrow w ≡ output.entry.ghost_name) }
        ensures* rests { sem 𝓛 (RestsWithoutForm output.entry result) }
        ensures value { IfOk result (λ w. form_text w ≡ string_bytes output.old ++ form_head action.now version.now) }
        // What is written is read as the two pairs.
        ensures reads { pairs_of (form_head action.now version.now) ≡ (codes "Action", action.now) ∷ (codes "Version", version.now) ∷ [] }
    {
        push_head(output, action, version)?;
        Ok(QueryWriter { output })
    }

    /// A place for the texts under this path.
    pub fn prefix<'b>(&'b mut self, prefix: &'b str) -> QueryValueWriter<'b>
        ensures* lends { sem 𝓛 (LendsFormText self.entry (value_borrow result)) }
        ensures value { value_text result ≡ form_text self.old }
        ensures prefix { value_prefix result ≡ prefix.now }
    {
        QueryValueWriter::new(self.text(), CowStr::Borrowed(prefix))
    }

    fn text(&mut self) -> &mut String
        ensures* lends { sem 𝓛 (LendsFormText self.entry result.ghost_name) }
        ensures value { string_bytes result.now ≡ form_text self.old }
    {
        self.output
    }

    /// Ends the form, which adds nothing.
    pub fn finish(self)
        ensures { string_bytes self.exit.0.now ≡ form_text self.entry }
    {}
}

/// A place for the texts of one value, under its path.
///
/// What it owns of the path is always a `String`. It stands as a type parameter since only so do contracts see
/// what a call by value leaves behind the borrow.
#[derive(Drop)]
pub struct QueryValueWriter<'a, S: Drop = String> {
    output: &'a mut String,
    // the path is `base` and then `rest`
    base: &'a str,
    rest: S,
}

impl<'a> QueryValueWriter<'a, String> {
    /// A place at the end of the text, under a path.
    pub fn new(output: &'a mut String, prefix: CowStr<'a>) -> QueryValueWriter<'a>
        ensures same_borrow { value_borrow result ≡ output.entry.ghost_name }
        ensures value { value_text result ≡ string_bytes output.old }
        ensures prefix { value_prefix result ≡ cow_str_bytes prefix.entry }
    {
        let alloc = *output.allocator();
        match prefix {
            CowStr::Borrowed(base) => QueryValueWriter {
                output,
                base,
                rest: String::new(alloc),
            },
            CowStr::Owned(rest) => QueryValueWriter {
                output,
                base: "",
                rest,
            },
        }
    }

    /// A place for the texts under a further segment. What is written there goes to the text.
    pub fn prefix(&mut self, prefix: &str) -> Result<QueryValueWriter<'_>, AllocError>
        ensures* lends { sem 𝓛 (LendsValueText self.entry value_borrow result) }
        ensures value { IfOk result (λ w. value_text w ≡ value_text self.old) }
        ensures prefix { IfOk result (λ w. value_prefix w ≡ further (value_prefix self.old) (prefix.now ∷ [])) }
    {
        value_writer(self.further_place(prefix))
    }

    fn further_place(&mut self, segment: &str) -> NextPlace<'_>
        ensures* lends { sem 𝓛 (LendsFurther self.entry result) }
        ensures value { string_bytes result.output.now ≡ value_text self.old }
        ensures path { IfOk result.path (λ p. string_bytes p ≡ further (value_prefix self.old) (segment.now ∷ [])) }
    {
        let path = self.further_path(segment);
        NextPlace {
            output: self.output,
            path,
        }
    }

    fn further_path(&self, segment: &str) -> Result<String, AllocError>
        ensures { IfOk result (λ p. string_bytes p ≡ further (value_prefix self.now) (segment.now ∷ [])) }
    {
        let mut path = joined(*self.output.allocator(), self.base, self.rest.as_str())?;
        push_segment(&mut path, segment)?;
        Ok(path)
    }

    /// Writes `true` or `false`.
    pub fn boolean(self, value: bool) -> Result<(), AllocError>
        ensures ok { OnOk result (string_bytes self.exit.0.now ≡ value_text self.entry ++ pair_text (value_prefix self.entry) (boolean_text value)) }
        ensures err { OnErr result (string_bytes self.exit.0.now ≡ value_text self.entry) }
    {
        let QueryValueWriter { output, base, rest } = self;
        push_pair(
            output,
            base,
            rest.as_str(),
            if value { "true" } else { "false" },
        )
    }

    /// Writes a text.
    pub fn string(self, value: &str) -> Result<(), AllocError>
        ensures ok { OnOk result (string_bytes self.exit.0.now ≡ value_text self.entry ++ pair_text (value_prefix self.entry) value.now) }
        ensures err { OnErr result (string_bytes self.exit.0.now ≡ value_text self.entry) }
        // What stands behind the `=` is read as the text.
        ensures decodes { percent_decode (encoded value.now) ≡ value.now }
    {
        let QueryValueWriter { output, base, rest } = self;
        push_pair(output, base, rest.as_str(), value)
    }

    /// Writes a whole number, in decimal digits.
    pub fn number(self, value: Number) -> Result<(), AllocError>
        ensures ok { OnOk result (string_bytes self.exit.0.now ≡ value_text self.entry ++ pair_text (value_prefix self.entry) (signed_decimal (whole_number value))) }
        ensures err { OnErr result (string_bytes self.exit.0.now ≡ value_text self.entry) }
    {
        let QueryValueWriter { output, base, rest } = self;
        let mut buffer = Buffer::new();
        match value {
            Number::PosInt(n) => push_pair(output, base, rest.as_str(), buffer.format(n)),
            Number::NegInt(n) => push_pair(output, base, rest.as_str(), buffer.format(n)),
        }
    }

    /// Writes an instant in this form, with what the form has no room for cut off.
    pub fn date_time(self, date_time: &DateTime, format: Format) -> Result<(), DateTimeFormatError>
        ensures ok { OnOk result (option_map (λ t. value_text self.entry ++ pair_text (value_prefix self.entry) t) (date_text format date_time.now)
            ≡ Some (string_bytes self.exit.0.now)) }
        ensures err { OnErr result (string_bytes self.exit.0.now ≡ value_text self.entry) }
        ensures cause { IfErr result (λ e. e ≡ OutOfRange → date_text format date_time.now ≡ None) }
        // An instant that leaves the range takes no memory.
        ensures memory { IfErr result (λ e. e ≡ NoMemory → is_some (date_text format date_time.now) ≡ true) }
    {
        let QueryValueWriter { output, base, rest } = self;
        let text = date_time.fmt(*output.allocator(), format)?;
        match push_pair(output, base, rest.as_str(), text.as_str()) {
            Ok(()) => Ok(()),
            Err(_) => Err(DateTimeFormatError::NoMemory),
        }
    }

    /// Begins a list, which adds nothing. Its elements stand under `member` or the given name, those of a flat one under its own path.
    pub fn start_list(self, flat: bool, member_override: Option<&'a str>) -> QueryListWriter<'a>
        ensures same_borrow { list_borrow result ≡ value_borrow self.entry }
        ensures value { list_text result ≡ value_text self.entry }
        ensures prefix { list_prefix result ≡ value_prefix self.entry }
        ensures index { list_index result ≡ 1 }
        ensures flat { list_is_flat result ≡ flat }
        ensures member { list_member result ≡ unwrap_or (option_map (λ s. s.now) member_override.entry) (codes "member") }
    {
        let QueryValueWriter { output, base, rest } = self;
        let member = match member_override {
            Some(name) => name,
            None => "member",
        };
        QueryListWriter {
            output,
            base,
            rest,
            is_flat: flat,
            member,
            next_index: 1,
        }
    }

    /// Begins a map, which adds nothing. Its entries stand under `entry`, those of a flat one under its own path.
    pub fn start_map(self, flat: bool, key_name: &'a str, value_name: &'a str) -> QueryMapWriter<'a>
        ensures same_borrow { map_borrow result ≡ value_borrow self.entry }
        ensures value { map_text result ≡ value_text self.entry }
        ensures prefix { map_prefix result ≡ value_prefix self.entry }
        ensures index { map_index result ≡ 1 }
        ensures flat { map_is_flat result ≡ flat }
        ensures names { (map_key_name result ≡ key_name.now) × (map_value_name result ≡ value_name.now) }
    {
        let QueryValueWriter { output, base, rest } = self;
        QueryMapWriter {
            output,
            base,
            rest,
            is_flat: flat,
            key_name,
            value_name,
            next_index: 1,
        }
    }
}

/// A list that has begun. One that is dropped without `finish` adds nothing where it has no elements.
#[derive(Drop)]
pub struct QueryListWriter<'a, S: Drop = String> {
    output: &'a mut String,
    base: &'a str,
    rest: S,
    is_flat: bool,
    // the segment between the list and its elements, where it isn't flat
    member: &'a str,
    next_index: u64,
}

impl<'a> QueryListWriter<'a, String> {
    /// The number of the next element.
    pub fn next_index(&self) -> u64
        ensures { result ≡ list_index self.now }
    {
        self.next_index
    }

    /// A place for the next element, under its path. What is written there goes to the list's text, and the
    /// element counts even if nothing is. A list of 2^64-2 elements, whose next number is `u64::MAX`, takes no
    /// more: it answers `AllocError`.
    pub fn entry(&mut self) -> Result<QueryValueWriter<'_>, AllocError>
        ensures* lends { sem 𝓛 (LendsElement self.entry value_borrow result) }
        ensures value { IfOk result (λ w. value_text w ≡ list_text self.old) }
        ensures prefix { IfOk result (λ w. value_prefix w ≡ further (list_prefix self.old) (next_element self.old)) }
    {
        value_writer(self.next_place())
    }

    fn next_place(&mut self) -> NextPlace<'_>
        ensures* lends { sem 𝓛 (LendsNextElement self.entry result) }
        ensures value { string_bytes result.output.now ≡ list_text self.old }
        ensures path { IfOk result.path (λ p. string_bytes p ≡ further (list_prefix self.old) (next_element self.old)) }
    {
        let path = self.next_path();
        self.next_index = counted(self.next_index, &path);
        NextPlace {
            output: self.output,
            path,
        }
    }

    fn next_path(&self) -> Result<String, AllocError>
        ensures path { IfOk result (λ s. string_bytes s ≡ further (list_prefix self.now) (next_element self.now)) }
        ensures room { IfOk result (λ s. list_index self.now < 18446744073709551615) }
    {
        let mut path = joined(*self.output.allocator(), self.base, self.rest.as_str())?;
        push_group(&mut path, self.is_flat, self.member)?;
        push_number(&mut path, self.next_index)?;
        Ok(path)
    }

    /// Ends the list. One without elements adds its path with an empty text.
    pub fn finish(self) -> Result<(), AllocError>
        ensures ok { OnOk result (string_bytes self.exit.0.now ≡ list_text self.entry ++ empty_text (list_prefix self.entry) (list_index self.entry)) }
        ensures err { OnErr result (string_bytes self.exit.0.now ≡ list_text self.entry) }
    {
        let QueryListWriter {
            output,
            base,
            rest,
            is_flat: _,
            member: _,
            next_index,
        } = self;
        if next_index == 1 {
            return push_pair(output, base, rest.as_str(), "");
        }
        Ok(())
    }
}

/// A map that has begun.
#[derive(Drop)]
pub struct QueryMapWriter<'a, S: Drop = String> {
    output: &'a mut String,
    base: &'a str,
    rest: S,
    is_flat: bool,
    key_name: &'a str,
    value_name: &'a str,
    next_index: u64,
}

impl<'a> QueryMapWriter<'a, String> {
    /// The number of the next entry.
    pub fn next_index(&self) -> u64
        ensures { result ≡ map_index self.now }
    {
        self.next_index
    }

    /// Adds the next key, and gives a place for its value, under its path. What is written there goes to the
    /// map's text. A map of 2^64-2 entries, whose next number is `u64::MAX`, takes no more: it answers
    /// `AllocError`.
    pub fn entry(&mut self, key: &str) -> Result<QueryValueWriter<'_>, AllocError>
        ensures* lends { sem 𝓛 (LendsEntry self.entry value_borrow result) }
        ensures value { IfOk result (λ w. value_text w ≡ map_text self.old ++ pair_text (further (map_prefix self.old) (next_key self.old)) key.now) }
        ensures prefix { IfOk result (λ w. value_prefix w ≡ further (map_prefix self.old) (next_value self.old)) }
    {
        value_writer(self.next_place(key))
    }

    fn next_place(&mut self, key: &str) -> NextPlace<'_>
        ensures* lends { sem 𝓛 (LendsNextEntry self.entry result) }
        ensures ok { OnOk result.path (string_bytes result.output.now ≡ map_text self.old ++ pair_text (further (map_prefix self.old) (next_key self.old)) key.now) }
        ensures err { OnErr result.path (string_bytes result.output.now ≡ map_text self.old) }
        ensures path { IfOk result.path (λ p. string_bytes p ≡ further (map_prefix self.old) (next_value self.old)) }
    {
        let key_path = self.next_path(self.key_name);
        let value_path = self.next_path(self.value_name);
        let path = push_key(self.output, key_path, key, value_path);
        self.next_index = counted(self.next_index, &path);
        NextPlace {
            output: self.output,
            path,
        }
    }

    fn next_path(&self, name: &str) -> Result<String, AllocError>
        ensures path { IfOk result (λ s. string_bytes s ≡ further (map_prefix self.now) (entry_path self.now.is_flat self.now.next_index name.now)) }
        ensures room { IfOk result (λ s. map_index self.now < 18446744073709551615) }
    {
        let mut path = joined(*self.output.allocator(), self.base, self.rest.as_str())?;
        push_group(&mut path, self.is_flat, "entry")?;
        push_number(&mut path, self.next_index)?;
        push_segment(&mut path, name)?;
        Ok(path)
    }

    /// Ends the map, which adds nothing.
    pub fn finish(self)
        ensures { string_bytes self.exit.0.now ≡ map_text self.entry }
    {}
}

// A text, and the path of the value that is written to it next, or why there is none.
#[derive(Drop)]
pub(crate) struct NextPlace<'a, S: Drop = Result<String, AllocError>> {
    output: &'a mut String,
    path: S,
}

// The place, where it has a path.
fn value_writer(place: NextPlace<'_>) -> Result<QueryValueWriter<'_>, AllocError>
    ensures* rests { sem 𝓛 (RestsWithoutValue place.entry.output result) }
    ensures writer { IsWriterOf place.entry.output place.entry.path result }
{
    let NextPlace { output, path } = place;
    let rest = path?;
    Ok(QueryValueWriter {
        output,
        base: "",
        rest,
    })
}

// Adds the key of an entry where it and its value have paths, and gives the path of the value.
fn push_key(
    out: &mut String,
    key_path: Result<String, AllocError>,
    key: &str,
    value_path: Result<String, AllocError>,
) -> Result<String, AllocError>
    ensures ok { OnOk result (IfOk key_path (λ p. string_bytes out.new ≡ string_bytes out.old ++ pair_text (string_bytes p) key.now)) }
    ensures err { OnErr result (string_bytes out.new ≡ string_bytes out.old) }
    ensures key { OnOk result (IsOk key_path) }
    ensures path { IfOk result (λ p. value_path ≡ Ok p) }
{
    let key_path = key_path?;
    let value_path = value_path?;
    push_pair(out, key_path.as_str(), "", key)?;
    Ok(value_path)
}

// The number behind that of a part, where the part has a path.
fn counted(index: u64, path: &Result<String, AllocError>) -> u64
    requires room { IfOk path.now (λ p. index < 18446744073709551615) }
    ensures { result ≡ counted path.now index }
{
    match path {
        Ok(_) => index + 1,
        Err(_) => index,
    }
}
