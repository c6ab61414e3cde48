//! The code of an error as answers of services carry it.
ghost use Rattle.std.specs.Prelude.{◌≡◌, option_map};
ghost use Rattle.smithy_protocol.specs.ErrorCode.{error_code, query_error};

/// The name of the error that the code of an answer says: without what stands behind the first `:`, and of that without what
/// stands before and at its first `#`. It takes no memory.
///
/// `ns#FooError:http://example/` gives `FooError`.
pub fn sanitize_error_code(code: &str) -> &str
    ensures { result.now ≡ error_code code.now }
{
    let code = match code.split_once(':') {
        Some((before, _)) => before,
        None => code,
    };
    match code.split_once('#') {
        Some((_, behind)) => behind,
        None => code,
    }
}

/// The code and the type of the error in the value of a header `x-amzn-query-error`: what stands before the first `;`, and what
/// stands behind it. None where the value has no `;`. It takes no memory.
pub fn parse_query_compatible_header(value: &str) -> Option<(&str, &str)>
    ensures { option_map (λ parts. (parts.0.now, parts.1.now)) result ≡ query_error value.now }
{
    value.split_once(';')
}
