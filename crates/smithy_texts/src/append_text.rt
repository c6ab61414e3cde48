//! What grows by texts at its end.

ghost use Rattle.std.specs.Prelude.{◌≡◌, ◌++◌, ℕ, List, string_bytes, OnOk, OnErr};

use std::alloc::AllocError;

/// Bytes that grow by texts at their end.
pub trait AppendText {
    // The bytes so far.
    ghost bytes: { Self → List ℕ };

    /// Adds the text.
    fn append_text(&mut self, text: &str) -> Result<(), AllocError>
        ensures ok { OnOk result (bytes self.new ≡ bytes self.old ++ text.now) }
        ensures err { OnErr result (bytes self.new ≡ bytes self.old) };
}

impl AppendText for String {
    ghost bytes = { string_bytes };

    fn append_text(&mut self, text: &str) -> Result<(), AllocError> {
        self.push_str(text)
    }
}

impl AppendText for Vec<u8> {
    ghost bytes = { λ bytes. bytes.items };

    fn append_text(&mut self, text: &str) -> Result<(), AllocError> {
        self.extend_from_slice(text.as_bytes())
    }
}
