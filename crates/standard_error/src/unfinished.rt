//! What is said of campaigns whose trials don't come to their ends.

/// The number of a line of counts with this name.
fn count_in(text: &str, name: &str) -> Option<u64> {
    for line in text.lines() {
        if let Some(number) = line.strip_prefix(name) {
            return number.parse::<u64>().ok();
        }
    }
    None
}

/// Whether a printed text has the counts of a campaign of which more than half of the trials are unfinished.
fn is_mostly_unfinished(printed: &str) -> bool {
    match (
        count_in(printed, "trials "),
        count_in(printed, "unfinished "),
    ) {
        (Some(trials), Some(unfinished)) => trials / 2 < unfinished,
        _ => false,
    }
}

/// Whether the words ask for as many attempts as there may be.
fn asks_for_most(words: &[String]) -> bool {
    let mut is_number = false;
    for word in words {
        if is_number && word.as_str() == "1000000" || word.as_str() == "--attempts=1000000" {
            return true;
        }
        is_number = word.as_str() == "--attempts";
    }
    false
}

/// What a person is told of a printed text whose trials are mostly unfinished, unless the words ask for as many
/// attempts as there may be.
pub fn advice(words: &[String], printed: &str) -> Option<&'static str> {
    if !is_mostly_unfinished(printed) || asks_for_most(words) {
        return None;
    }
    Some(
        "tsotest: most trials are unfinished: nearly all come to their end with --attempts 1000000",
    )
}
