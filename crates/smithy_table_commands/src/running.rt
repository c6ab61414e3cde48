//! One run of the program.
ghost use Rattle.std.specs.Prelude.{◌≡◌, map, string_bytes, IfOk, IfErr, OnOk};
ghost use Rattle.smithy_model.specs.Model.{Model};
ghost use Rattle.smithy_model.specs.Reading.{IsModelText};
ghost use Rattle.smithy_model_table.specs.ModelTable.{IsTableOf};
ghost use Rattle.smithy_model_table.specs.Views.{left_view, wanted_view};
ghost use Rattle.smithy_outside.specs.Outside.{MetNoFault};
ghost use Rattle.smithy_table_commands.specs.declared.status.Status as kept;
ghost use Rattle.smithy_table_commands.specs.RunAnswer.{IsLoaded, FailsToLoad, Refuses, HandsOut, SaysOf, TaskAnswer, RunAnswer};
ghost use Rattle.smithy_table_commands.specs.Status.{status_code};
ghost use Rattle.smithy_table_commands.specs.Views.{task_view};

use crate::left_out::{is_forbidden, say};
use crate::reporting::report;
use crate::status::Status;
use crate::task::Task;
use json::Scratch;
use smithy_model::read_model;
use smithy_model_table::{ModelTable, Wanted, table_of};
use smithy_outside::{Files, Sink, write_all};
use std::alloc::Global;

// The most bytes of a model.
const MAX_MODEL_LEN: usize = 67_108_864;

// The text of a model.
fn load_model<F: Files>(
    alloc: Global,
    files: &mut F,
    path: &str,
) -> Result<Vec<u8>, Status<'static>>
    ensures loaded { IfOk result (λ text. IsLoaded text.items (F.told files.old path.now)) }
    ensures well { OnOk result (MetNoFault (F.told files.old path.now) (F.told files.new path.now)) }
    ensures refused { IfErr result (FailsToLoad (F.told files.old path.now) (F.told files.new path.now)) }
{
    Ok(files.load(alloc, path, MAX_MODEL_LEN)?)
}

// The table of what is wanted of a model's text.
fn table_from<'a>(
    alloc: Global,
    text: &'a [u8],
    scratch: &'a mut Scratch,
    wanted: Wanted<'_>,
) -> Result<ModelTable<'a>, Status<'a>>
    ensures table { IfOk result (λ table. (m : Model) × IsModelText text.now m × IsTableOf m (wanted_view wanted.entry) table.text.items (map left_view table.left.items)) }
    ensures refused { IfErr result (Refuses text.now (wanted_view wanted.entry)) }
{
    let model = read_model(alloc, text, scratch)?;
    let table = table_of(alloc, model, wanted)?;
    Ok(table)
}

// Writes a table, where the words allow it.
fn hand_out<'a, K: Sink>(table: &ModelTable<'a>, is_partial: bool, out: &mut K) -> Status<'a>
    ensures { HandsOut table.now.text.items (map left_view table.now.left.items) is_partial (K.told out.old) (K.told out.new) (K.holds_back out.old) (K.holds_back out.new) result }
{
    if is_forbidden(&table.left, is_partial) {
        return Status::LeftOut;
    }
    match write_all(out, &table.text) {
        Ok(()) => Status::Done,
        Err(_) => Status::WriteFailed,
    }
}

// Does what the task asks for over a model's text, says how it ended, and answers it.
fn status_of<'a, K: Sink, E: Sink>(
    alloc: Global,
    text: &'a [u8],
    scratch: &'a mut Scratch,
    task: Task<'_>,
    out: &mut K,
    err: &mut E,
) -> Status<'a>
    ensures { SaysOf text.now (task_view task.entry) (K.told out.old) (K.told out.new) (K.holds_back out.old) (K.holds_back out.new)
        (E.told err.old) (E.told err.new) (E.holds_back err.new) result }
{
    match table_from(alloc, text, scratch, task.wanted) {
        Ok(table) => {
            let status = hand_out(&table, task.is_partial, out);
            say(err, &table.left, status);
            status
        }
        Err(status) => {
            report(err, status);
            status
        }
    }
}

// Does what the task asks for, and says how it ended.
fn perform<F: Files, K: Sink, E: Sink>(
    alloc: Global,
    task: Task<'_>,
    files: &mut F,
    out: &mut K,
    err: &mut E,
) -> u8
    ensures { (status : kept.Status) × (result ≡ status_code status) × TaskAnswer (task_view task.entry) (F.told files.old (task_view task.entry).model_path) (F.told files.new (task_view task.entry).model_path)
        (K.told out.old) (K.told out.new) (K.holds_back out.old) (K.holds_back out.new) (E.told err.old) (E.told err.new) (E.holds_back err.new) status }
{
    let text = match load_model(alloc, files, task.model) {
        Ok(text) => text,
        Err(status) => {
            report(err, status);
            return status.code();
        }
    };
    let mut scratch = Scratch::new(alloc);
    let status = status_of(alloc, &text, &mut scratch, task, out, err);
    status.code()
}

/// Runs the program with these words, which are its arguments without its own name, and answers the number
/// that it ends with. `err` takes a line for each member that is left out, and one that says the number, unless it is 0.
pub fn run<F: Files, K: Sink, E: Sink>(
    alloc: Global,
    words: &[String],
    files: &mut F,
    out: &mut K,
    err: &mut E,
) -> u8
    ensures { RunAnswer (map string_bytes words.now) (F.told files.old) (F.told files.new) (K.told out.old) (K.told out.new)
        (E.told err.old) (E.told err.new) (K.holds_back out.old) (K.holds_back out.new) (E.holds_back err.new) result }
{
    match Task::from_words(words) {
        Some(task) => perform(alloc, task, files, out, err),
        None => {
            report(err, Status::Usage);
            Status::Usage.code()
        }
    }
}
