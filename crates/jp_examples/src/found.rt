use jp_compiled::Want;
use jp_found::{Aggregate, has_first, of_one};
use jp_node::Part;

fn is_there(value: Part<'_>) -> bool {
    let answer: Aggregate<'_> = of_one(Want::First, value);
    has_first(answer)
}
