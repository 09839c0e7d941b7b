use jp_number::{Number, NumberText};

// Whether the price that a text writes is below a limit; false of a text that is over the limits.
fn is_cheap(price: &str, limit: i128) -> bool {
    match NumberText::new(price) {
        Some(price) => Number::Written(price).is_below(Number::Whole(limit)),
        None => false,
    }
}
