//! What the words of the program ask for.
ghost use Rattle.std.specs.Prelude.{◌≡◌, map, option_map, string_bytes};
ghost use Rattle.smithy_table_commands.specs.Command.{wanted_named, task_of, command_of};
ghost use Rattle.smithy_model_table.specs.Views.{wanted_view};
ghost use Rattle.smithy_table_commands.specs.Views.{task_view};

use smithy_model_table::Wanted;

/// A table that is asked for.
#[derive(Clone, Copy)]
pub struct Task<'w> {
    /// The path of the model.
    pub model: &'w str,
    pub wanted: Wanted<'w>,
    /// The table may leave out members that a body may have.
    pub is_partial: bool,
}

// input, output or shape, by a name
fn named<'w>(way: &str, name: &'w str) -> Option<Wanted<'w>>
    ensures { option_map wanted_view result ≡ wanted_named way.now name.now }
{
    match way {
        "input" => Some(Wanted::Input(name)),
        "output" => Some(Wanted::Output(name)),
        "shape" => Some(Wanted::Shape(name)),
        _ => None,
    }
}

// WAY MODEL NAME, or service MODEL
fn asked<'w>(words: &'w [String], is_partial: bool) -> Option<Task<'w>>
    ensures { option_map task_view result ≡ task_of is_partial (map string_bytes words.now) }
{
    match words {
        [way, model] if way.as_str() == "service" => Some(Task {
            model: model.as_str(),
            wanted: Wanted::Service,
            is_partial,
        }),
        [way, model, name] => Some(Task {
            model: model.as_str(),
            wanted: named(way.as_str(), name.as_str())?,
            is_partial,
        }),
        _ => None,
    }
}

impl<'w> Task<'w> {
    /// The task that the words ask for: `[partial] input|output MODEL OPERATION`, `[partial] shape MODEL SHAPE` or
    /// `[partial] service MODEL`.
    pub fn from_words(words: &'w [String]) -> Option<Task<'w>>
        ensures { option_map task_view result ≡ command_of (map string_bytes words.now) }
    {
        match words {
            [first, rest @ ..] if first.as_str() == "partial" => asked(rest, true),
            _ => asked(words, false),
        }
    }
}
