//! Which query texts are accepted (RFC 9535, 2.1 and 2.4): the verdict, and plans.
#![tactic(auto)]

mod accepted;
mod checking;
mod examples;
mod filter_plan;
mod filters;
mod known;
pub mod laws;
mod leaves;
mod listed;
mod making;
mod patterns;
mod uniform;

pub use accepted::Plan;
pub use checking::{check, plan, plan_in};
pub use filter_plan::FilterPlan;
pub use filters::{filter_in, filter_query_text};
pub use known::Known;
