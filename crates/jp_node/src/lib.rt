//! Nodes of a document (RFC 9535, 1.1): a value, its children and those that an index (2.3.3) and a slice
//! (2.3.4) select, where it is (2.7), and who is told of it.
#![tactic(auto)]

mod bare_text;
mod bounds;
mod child_range;
mod children;
mod examples;
mod index;
mod items;
pub mod laws;
mod link;
mod locations;
mod members;
mod names;
mod one_child;
mod part;
mod path_stack;
mod slices;
mod step;
mod visit;

pub use bare_text::is_bare;
pub use bounds::{Bounds, slice_bounds};
pub use child_range::ChildRange;
pub use children::{Child, Children, children_of, named, placed, structured_children_of};
pub use index::{place, place_in};
pub use items::Items;
pub use link::Link;
pub use locations::Locations;
pub use members::{Member, MemberList, MemberRange, Members};
pub use one_child::{first_item, member_at};
pub use part::{Inside, Kind, Part};
pub use path_stack::{PathStack, Scratch};
pub use slices::sliced;
pub use step::append_link;
pub use visit::Visit;
