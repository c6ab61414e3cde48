//! The keys under which a body has the code and the message.
ghost use Rattle.std.specs.Prelude.{◌≡◌};
ghost use Rattle.smithy_error_bodies.specs.Said.{is_code, is_type, is_message};

pub(crate) fn is_code(key: &str) -> bool
    ensures { result ≡ is_code key.now }
{
    key == "code"
}

pub(crate) fn is_type(key: &str) -> bool
    ensures { result ≡ is_type key.now }
{
    key == "__type"
}

pub(crate) fn is_message(key: &str) -> bool
    ensures { result ≡ is_message key.now }
{
    key == "message" || key == "Message" || key == "errorMessage"
}
