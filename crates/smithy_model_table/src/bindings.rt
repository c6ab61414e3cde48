//! Where HTTP bindings count.
ghost use Rattle.std.specs.Prelude.{◌≡◌};
ghost use Rattle.smithy_model.specs.Views.{model_view};
ghost use Rattle.smithy_model_table.specs.Bindings.{bindings_of, no_bindings};
ghost use Rattle.smithy_model_table.specs.Roles.{KnowsRoles};
ghost use Rattle.smithy_model_table.specs.Views.{bindings_view};

use crate::roles::Roles;
use smithy_model::Model;

/// Which HTTP bindings count in a structure.
#[derive(Clone, Copy)]
pub(crate) struct Bindings {
    /// To headers.
    pub(crate) headers: bool,
    /// To the path and the query.
    pub(crate) request_line: bool,
    /// To the status code.
    pub(crate) status_line: bool,
}

/// The bindings of a union.
pub(crate) fn no_bindings() -> Bindings
    ensures { bindings_view result ≡ no_bindings }
{
    Bindings {
        headers: false,
        request_line: false,
        status_line: false,
    }
}

/// The bindings that count in the structure of this number, wherever it stands.
pub(crate) fn bindings_of(model: &Model<'_>, roles: &Roles, number: usize) -> Bindings
    requires { KnowsRoles (model_view model.now) roles.now }
    ensures { bindings_view result ≡ bindings_of (model_view model.now) number }
{
    if !model.has_http_bindings {
        return no_bindings();
    }
    let input = roles.inputs.contains(&number);
    let output = roles.outputs.contains(&number);
    let error = roles.errors.contains(&number);
    let nested = roles.nested.contains(&number);
    let headers = (input || output || error) && !nested;
    Bindings {
        headers,
        request_line: headers && input && !output && !error,
        status_line: headers && output && !input && !error,
    }
}
