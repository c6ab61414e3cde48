//! Statuses by their names.

use smithy_commands::Status;
use smithy_schema::TableFault;
use smithy_transcode::Unfit;

// The fault of a table of this name, at the declaration or in the line of this number.
fn fault_of(name: &str, number: u64) -> Option<TableFault> {
    match name {
        "BadLine" => Some(TableFault::BadLine(number)),
        "FloatShape" => Some(TableFault::FloatShape(number)),
        "UnknownTarget" => Some(TableFault::UnknownTarget(number)),
        "UnknownTimeFormat" => Some(TableFault::UnknownTimeFormat(number)),
        "DuplicateShape" => Some(TableFault::DuplicateShape(number)),
        "NameClash" => Some(TableFault::NameClash(number)),
        "QueryName" => Some(TableFault::QueryName(number)),
        "KeyValueName" => Some(TableFault::KeyValueName(number)),
        "SparseDocument" => Some(TableFault::SparseDocument(number)),
        "TooMany" => Some(TableFault::TooMany(number)),
        _ => None,
    }
}

// A status that has no part.
fn plain_status(name: &str) -> Option<Status> {
    match name {
        "Done" => Some(Status::Done),
        "Usage" => Some(Status::Usage),
        "ReadFailed" => Some(Status::ReadFailed),
        "WriteFailed" => Some(Status::WriteFailed),
        "OutOfMemory" => Some(Status::OutOfMemory),
        "InvalidInput" => Some(Status::InvalidInput),
        "TooDeep" => Some(Status::TooDeep),
        "TooWide" => Some(Status::TooWide),
        "NotCarried" => Some(Status::NotCarried),
        "NoSuchShape" => Some(Status::NoSuchShape),
        "NotAStructure" => Some(Status::NotAStructure),
        "TooLong" => Some(Status::TooLong),
        "Differs" => Some(Status::Differs),
        "LinesRefused" => Some(Status::LinesRefused),
        "FindingsTold" => Some(Status::FindingsTold),
        "NotWellFormed" => Some(Status::NotWellFormed),
        "TooNested" => Some(Status::TooNested),
        "NotForm" => Some(Status::NotForm),
        "NoValue" => Some(Status::NoValue),
        _ => None,
    }
}

// The refusal of the second of two bodies.
fn of_second(name: &str) -> Option<Status> {
    match name {
        "InvalidInput" => Some(Status::SecondInvalidInput),
        "TooDeep" => Some(Status::SecondTooDeep),
        "TooWide" => Some(Status::SecondTooWide),
        "NotCarried" => Some(Status::SecondNotCarried),
        _ => None,
    }
}

// What a wire can't express.
fn unfit_of(name: &str) -> Option<Unfit> {
    match name {
        "Document" => Some(Unfit::Document),
        "Null" => Some(Unfit::Null),
        "Instant" => Some(Unfit::Instant),
        _ => None,
    }
}

/// The status that is written so: its name, and behind blanks its parts.
pub fn status_of(named: &str) -> Option<Status> {
    let Some((name, parts)) = named.split_once(' ') else {
        return plain_status(named);
    };
    if name == "Inexpressible" {
        return Some(Status::Inexpressible(unfit_of(parts)?));
    }
    if name == "Second" {
        return of_second(parts);
    }
    let (fault, number) = parts.split_once(' ')?;
    let number = number.parse::<u64>().ok()?;
    Some(Status::TableRefused(fault_of(fault, number)?))
}
