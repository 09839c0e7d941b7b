//! Where a refused query or a faulty line went wrong, and what might have stood there: for people.
#![tactic(auto)]

mod characters;
mod cure;
mod cure_of_start;
mod cure_table;
mod document_picture;
mod escaping;
mod examples;
mod explanation;
mod growth;
mod line;
mod line_cause;
mod line_explanation;
mod line_helping;
mod line_picture;
mod meant;
mod pattern_note;
mod picture;
mod plain_pattern;
mod query_note;
mod sizes;
mod slashes;
mod words;

pub use document_picture::write_document_mark;
pub use escaping::escaped;
pub use explanation::{Explanation, explain};
pub use line_explanation::{LineExplanation, explain_line};
pub use line_helping::{document_help, help_with_document, help_with_line, line_help};
pub use line_picture::write_line_mark;
pub use pattern_note::{PatternNote, Trap, pattern_notes, write_pattern_note};
pub use picture::write_mark;
pub use query_note::{QueryNotes, query_notes};
pub use slashes::Slashes;
