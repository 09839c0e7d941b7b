//! The library: JSONPath (RFC 9535) with I-Regexp (RFC 9485) over JSON documents and JSON Lines, in one crate
//! for whoever calls. Each name has its page, with what is proved of it, in the crate that owns it.
#![tactic(auto)]

mod evaluation;

pub use evaluation::{evaluate, evaluate_split, visit_nodes};
pub use jp_answer::{DocStop, Gate, OpenGate};
pub use jp_board::{Board, BoardFault, CloseFault, Seat, Tally};
pub use jp_check::{Plan, check, plan, plan_in};
pub use jp_doc::{DocFault, Document, Line, Lines, Location, Step, whole_number};
pub use jp_eval::{Cuts, EvalFault, Fork, OpenFork};
pub use jp_node::{Bounds, Locations, Visit, slice_bounds};
pub use jp_number::Numbers;
pub use jp_output::{write_fault, write_line, write_path};
pub use jp_path::{path_plan, query_of};
pub use jp_regexp::{Pattern, Terms};
pub use jp_run::{
    Answer, Broken, Buffers, Cutting, FromReader, FromWriter, Output, Prepared, RunFault, Settings,
    Sink, Source, Supply, Totals, Whole, answer, answer_all, run,
};
pub use jp_syntax::read_query;
pub use jp_tokens::bracket_depth;
pub use jp_tree::{Query, QueryFault, is_singular};
pub use jp_value::{Operand, equal, less};
