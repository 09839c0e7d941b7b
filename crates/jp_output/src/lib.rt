//! Output lines and fault lines, with normalized paths (RFC 9535, 2.7).
#![tactic(auto)]

mod chunks;
mod examples;
mod fault_line;
mod field;
mod form;
mod head;
mod input_lines;
pub mod laws;
mod layout;
mod line_front;
mod node_lines;
mod output_buffer;
mod output_line;
mod path;
mod raw_text;
mod row_lines;
mod scalar_text;
mod shared;
mod unquoted_text;
mod value_form;
mod value_per_line;
mod value_text;

pub use chunks::{append_chunks, join_chunks, push_chunk};
pub use fault_line::write_fault;
pub use field::{Field, FieldList, FieldStep};
pub use form::Form;
pub use head::Head;
pub use input_lines::InputLines;
pub use layout::{Ending, Layout};
pub use node_lines::NodeLines;
pub use output_line::write_line;
pub use path::write_path;
pub use row_lines::RowLines;
pub use value_per_line::{RawLines, TextLines, ValueLines};
