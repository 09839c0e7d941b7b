use jp_field::field_in;
use jp_output::Field;
use jp_tree::QueryFault;
use std::alloc::Global;

fn name_of_each(alloc: Global) -> Result<Field, QueryFault> {
    field_in(alloc, "@.name")
}
