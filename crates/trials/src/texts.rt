use std::alloc::{AllocError, Global};

/// A text in which `@COUNT ITEM@` stands for the item so many times, each with its number, counted from
/// 1, for `%`: `[0@3 , %@]` is `[0, 1, 2, 3]`.
pub fn expanded(alloc: Global, text: &str) -> Result<String, AllocError> {
    let mut whole = String::new(alloc);
    for (place, part) in text.split('@').enumerate() {
        match part.split_once(' ') {
            Some((count, item)) if place % 2 == 1 => {
                whole.push_str(repeated(alloc, count, item)?.as_str())?;
            }
            _ => whole.push_str(part)?,
        }
    }
    Ok(whole)
}

/// An item as often as a numeral says, and never where it is none.
fn repeated(alloc: Global, count: &str, item: &str) -> Result<String, AllocError> {
    let mut all = String::new(alloc);
    for number in 1..=count.parse::<u32>().unwrap_or(0) {
        let numeral = format!(in alloc; "{number}")?;
        all.push_str(item.replace(alloc, "%", numeral.as_str())?.as_str())?;
    }
    Ok(all)
}
