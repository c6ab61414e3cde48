//! The checks by their names.

use crate::{
    adapters, copies, discriminated, documents, errors, forms, kinds, library, names, process,
    readers, replays, requests, sizes, walk, writers,
};
use smithy_rows::{Answers, Field, Program, Row, Rows};
use std::alloc::{AllocError, Global};
use std::rt;

/// Checks of the libraries, over the files of a runtime if they are over files.
#[derive(Drop)]
pub struct Checks<'r, R: rt::Files> {
    pub rt: &'r R,
}

// Whether a check of copies or documents holds.
fn of_values(alloc: Global, name: &str) -> Option<bool> {
    match name {
        "a_blob_keeps_its_bytes" => copies::a_blob_keeps_its_bytes(alloc).ok(),
        "big_integers_are_compared" => copies::big_integers_are_compared(alloc).ok(),
        "numbers_are_compared" => copies::numbers_are_compared(alloc).ok(),
        "instants_are_in_order" => Some(copies::instants_are_in_order()),
        "what_was_found_in_json_is_copied" => Some(copies::what_was_found_in_json_is_copied()),
        "a_string_that_was_found_is_copied" => copies::a_string_that_was_found_is_copied(),
        "tokens_and_faults_are_compared" => Some(copies::tokens_and_faults_are_compared()),
        "wires_are_compared_by_what_is_chosen" => {
            copies::wires_are_compared_by_what_is_chosen(alloc).ok()
        }
        "a_copy_of_a_decoder_stands_where_it_stood" => {
            copies::a_copy_of_a_decoder_stands_where_it_stood()
        }
        "types_of_items_are_in_order" => Some(copies::types_of_items_are_in_order()),
        "a_text_makes_the_document_that_it_means" => {
            documents::a_text_makes_the_document_that_it_means(alloc).ok()
        }
        "a_document_hands_out_its_parts" => documents::a_document_hands_out_its_parts(alloc).ok(),
        "numbers_keep_their_variant" => Some(documents::numbers_keep_their_variant()),
        "parts_are_changed_in_place_and_not_in_a_copy" => {
            documents::parts_are_changed_in_place_and_not_in_a_copy(alloc)
        }
        "a_null_has_no_elements" => Some(documents::a_null_has_no_elements()),
        "a_document_is_written_by_its_whole_numbers" => {
            documents::a_document_is_written_by_its_whole_numbers(alloc)
        }
        _ => None,
    }
}

// Whether a check of errors or their names holds.
fn of_errors(alloc: Global, name: &str) -> Option<bool> {
    match name {
        "faults_of_texts_become_faults_of_tokens" => {
            Some(errors::faults_of_texts_become_faults_of_tokens())
        }
        "a_number_that_does_not_fit_becomes_a_fault_of_tokens" => {
            Some(errors::a_number_that_does_not_fit_becomes_a_fault_of_tokens())
        }
        "a_caller_states_a_fault_at_a_token" => {
            Some(errors::a_caller_states_a_fault_at_a_token(alloc))
        }
        "a_caller_states_a_fault_of_a_union" => {
            Some(errors::a_caller_states_a_fault_of_a_union(alloc))
        }
        "a_caller_states_a_fault_at_an_offset" => {
            Some(errors::a_caller_states_a_fault_at_an_offset())
        }
        "want_of_memory_prints_its_name" => Some(names::want_of_memory_prints_its_name(alloc)),
        "what_a_decoder_may_state_prints_its_name" => {
            Some(names::what_a_decoder_may_state_prints_its_name(alloc))
        }
        "what_a_caller_states_prints_its_name" => {
            Some(names::what_a_caller_states_prints_its_name(alloc))
        }
        "what_is_no_model_and_no_table_prints_its_name" => {
            Some(names::what_is_no_model_and_no_table_prints_its_name(alloc))
        }
        "steps_and_places_show_their_parts" => {
            Some(names::steps_and_places_show_their_parts(alloc))
        }
        _ => None,
    }
}

// Whether a check of named documents, or of calls on several crates, holds.
fn of_calls(alloc: Global, name: &str) -> Option<bool> {
    match name {
        "a_copy_has_every_part" => discriminated::a_copy_has_every_part(alloc),
        "settings_are_not_compared" => discriminated::settings_are_not_compared(alloc).ok(),
        "what_settings_leave_unsaid_is_unsupported" => {
            Some(discriminated::what_settings_leave_unsaid_is_unsupported(alloc))
        }
        "each_kind_is_written_as_it_was_read" => kinds::each_kind_is_written_as_it_was_read(alloc),
        "a_null_leaves_a_field_as_it_was" => kinds::a_null_leaves_a_field_as_it_was(alloc),
        "a_body_is_read" => Some(library::a_body_is_read(alloc)),
        "a_null_token_is_no_token" => library::a_null_token_is_no_token(alloc),
        "a_request_is_read_and_written" => library::a_request_is_read_and_written(alloc),
        "a_reader_that_has_failed_answers_so" => {
            readers::a_reader_that_has_failed_answers_so(alloc)
        }
        "a_text_outlives_its_codec" => readers::a_text_outlives_its_codec(alloc),
        "a_recorded_body_becomes_a_form" => replays::a_recorded_body_becomes_a_form(alloc),
        "a_value_is_a_request_in_another_protocol" => {
            replays::a_value_is_a_request_in_another_protocol(alloc)
        }
        "a_request_is_made" => requests::a_request_is_made(alloc),
        "an_error_is_read" => requests::an_error_is_read(alloc),
        "relative_names_stand_in_the_namespace_of_the_protocol" => {
            requests::relative_names_stand_in_the_namespace_of_the_protocol(alloc)
        }
        "a_map_is_entered_inside_a_list_and_left" => {
            Some(walk::a_map_is_entered_inside_a_list_and_left(alloc))
        }
        "refuses_65536_members" => sizes::refuses_65536_members(alloc).ok(),
        "refuses_65536_declarations" => sizes::refuses_65536_declarations(alloc).ok(),
        _ => None,
    }
}

// Whether a check that is over files holds.
fn over_files<R: rt::Files>(alloc: Global, rt: &R, name: &str) -> Option<bool> {
    match name {
        "a_reader_is_asked_no_more_once_it_failed" => {
            Some(adapters::a_reader_is_asked_no_more_once_it_failed(alloc))
        }
        "a_writer_is_asked_no_more_once_it_failed" => {
            Some(adapters::a_writer_is_asked_no_more_once_it_failed(alloc))
        }
        "real_files_are_loaded" => adapters::real_files_are_loaded(alloc, rt).ok(),
        "the_process_ends_with_the_status" => {
            process::the_process_ends_with_the_status(alloc, rt).ok()
        }
        _ => None,
    }
}

// What a check writes, if it is one that writes.
fn written(alloc: Global, name: &str) -> Option<String> {
    match name {
        "writes_lists_and_maps" => forms::writes_lists_and_maps(alloc).ok(),
        "writes_values" => forms::writes_values(alloc),
        "writes_under_longer_paths" => forms::writes_under_longer_paths(alloc).ok(),
        "writes_empty_lists_and_maps" => forms::writes_empty_lists_and_maps(alloc).ok(),
        "an_object_is_written" => writers::an_object_is_written(alloc).ok(),
        "an_array_is_written" => writers::an_array_is_written(alloc).ok(),
        "a_place_is_begun_and_then_taken" => writers::a_place_is_begun_and_then_taken(alloc).ok(),
        "a_refused_document_leaves_a_front" => writers::a_refused_document_leaves_a_front(alloc),
        "a_refused_instant_leaves_a_front" => writers::a_refused_instant_leaves_a_front(alloc),
        _ => None,
    }
}

// Whether a check of any kind holds.
fn holds<R: rt::Files>(alloc: Global, rt: &R, name: &str) -> Option<bool> {
    if let Some(is) = of_values(alloc, name) {
        return Some(is);
    }
    if let Some(is) = of_errors(alloc, name) {
        return Some(is);
    }
    if let Some(is) = of_calls(alloc, name) {
        return Some(is);
    }
    over_files(alloc, rt, name)
}

impl<'r, R: rt::Files> Program for Checks<'r, R> {
    fn is_answer(&self, word: &str) -> bool {
        matches!(word, "yes" | "no" | "text" | "none")
    }

    fn answer(&self, alloc: Global, rows: &Rows, row: &Row) -> Result<Vec<Field>, AllocError> {
        let _ = rows;
        let name = row.text("check").unwrap_or("");
        let mut answers = Answers::new(alloc);
        if let Some(text) = written(alloc, name) {
            answers.text("text", text.as_str())?;
            return Ok(answers.lines);
        }
        match holds(alloc, self.rt, name) {
            Some(true) => answers.bytes("yes", b"")?,
            Some(false) => answers.bytes("no", b"")?,
            None => answers.none()?,
        }
        Ok(answers.lines)
    }
}
