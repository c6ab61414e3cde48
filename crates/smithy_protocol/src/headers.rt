//! The headers of a message.
ghost use Rattle.std.specs.Prelude.{◌≡◌};
ghost use Rattle.smithy_protocol.specs.Headers.{header_of, is_under};

use std::alloc::{AllocError, Global};
use std::marker::Model;

/// A name and a value.
#[derive(Debug, Drop)]
struct Header {
    name: String,
    value: String,
}

/// The headers of a request or a response, in order. Names are compared without the case of ASCII letters (RFC 9110, section 5.1).
/// Contracts see them as a list of names and values.
#[derive(Debug, Drop)]
pub struct Headers {
    entries: Vec<Header>,
}

fn is_named(header: &Header, name: &str) -> bool
    ensures { result ≡ is_under name.now (header_of header.now) }
{
    header.name.eq_ignore_ascii_case(name)
}

impl Model for Headers {
    ghost use Rattle.std.specs.Prelude.{List, map};
    ghost use Rattle.smithy_protocol.specs.Headers.{Header, header_of};

    ghost Value = { List Header };

    ghost view = { λ h. map header_of h.entries.items };
}

impl Headers {
    ghost use Rattle.std.specs.Prelude.{◌≡◌, ◌<◌, [], ◌∷◌, ◌++◌, length, option_map, slice_get, string_bytes, Some, None, OnOk, OnErr};
    ghost use Rattle.smithy_protocol.specs.Headers.{inserted, value_under};

    /// No headers. It takes no memory.
    pub fn new(alloc: Global) -> Headers
        ensures { result ≡ [] }
    {
        Headers {
            entries: Vec::new(alloc),
        }
    }

    /// Puts a header in the place of the one whose name is equal, which takes no memory, or behind all others. Where it is refused, the
    /// headers are as they were.
    pub fn insert(&mut self, name: String, value: String) -> Result<(), AllocError>
        ensures put { OnOk result (self.new ≡ inserted (string_bytes name, string_bytes value) self.old) }
        ensures kept { OnErr result (self.new ≡ self.old) }
        ensures memory { OnErr result (value_under (string_bytes name) self.old ≡ None) }
    {
        let header = Header { name, value };
        for at in 0..self.entries.len() {
            if is_named(&self.entries[at], &header.name) {
                self.entries[at] = header;
                return Ok(());
            }
        }
        self.entries.push(header)?;
        Ok(())
    }

    // Puts a header behind all others, whatever its name.
    pub(crate) fn push(&mut self, alloc: Global, name: &str, value: &str) -> Result<(), AllocError>
        ensures { OnOk result (self.new ≡ self.old ++ (name.now, value.now) ∷ []) }
    {
        let name = String::from_str(alloc, name)?;
        let value = String::from_str(alloc, value)?;
        self.entries.push(Header { name, value })?;
        Ok(())
    }

    /// The value under a name.
    pub fn get(&self, name: &str) -> Option<&str>
        ensures { option_map (λ value. value.now) result ≡ value_under name.now self.now }
    {
        for header in &self.entries {
            if is_named(header, name) {
                return Some(&header.value);
            }
        }
        None
    }

    /// The number of headers.
    pub fn len(&self) -> usize
        ensures { result ≡ length self.now }
    {
        self.entries.len()
    }

    /// The name and the value of the header at a place in order, from 0.
    pub fn entry(&self, at: usize) -> (&str, &str)
        requires { at < length self.now }
        ensures { slice_get self.now at ≡ Some (result.0.now, result.1.now) }
    {
        let entry = &self.entries[at];
        (&entry.name, &entry.value)
    }
}
