use jp_tree::Query;
use jp_types::query_faults;

fn is_valid(query: &Query) -> bool {
    let faults = query_faults(query);
    !(faults.fraction || faults.out_of_range || faults.ill_typed)
}
