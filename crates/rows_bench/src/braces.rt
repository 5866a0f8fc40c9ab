//! Repeated text, which stands in braces.

use std::alloc::AllocError;

/// Adds a text in which `{TEXT*K}` stands for TEXT, K times, `{i}` for this number, `{i*K}` for K
/// times the number, and `{i:K}` for the number with zeros before it, K digits long.
pub fn expand(into: &mut String, text: &str, number: u64) -> Result<(), AllocError> {
    let mut parts = text.split("{");
    into.push_str(parts.next().unwrap_or(""))?;
    for part in parts {
        expand_part(into, part, number)?;
    }
    Ok(())
}

/// Adds what stands after a brace.
fn expand_part(into: &mut String, part: &str, number: u64) -> Result<(), AllocError> {
    match part.split_once("}") {
        Some((inside, rest)) => {
            expand_inside(into, inside, number)?;
            into.push_str(rest)
        }
        None => {
            into.push_str("{")?;
            into.push_str(part)
        }
    }
}

/// Adds what stands for the text between two braces.
fn expand_inside(into: &mut String, inside: &str, number: u64) -> Result<(), AllocError> {
    if inside == "i" {
        return write!(into, "{number}");
    }
    if let Some(width) = number_after(inside, "i:") {
        return put_digits(into, number, width);
    }
    if let Some(times) = number_after(inside, "i*") {
        let product = number.wrapping_mul(times);
        return write!(into, "{product}");
    }
    match times_in(inside) {
        Some((text, times)) => put_times(into, text, times),
        None => write!(into, "{{{inside}}}"),
    }
}

/// The number after these letters.
fn number_after(text: &str, letters: &str) -> Option<u64> {
    text.strip_prefix(letters)?.parse().ok()
}

/// A text and how often it stands there.
fn times_in(inside: &str) -> Option<(&str, u64)> {
    let (text, times) = inside.split_once("*")?;
    Some((text, times.parse().ok()?))
}

/// Adds a text so many times.
fn put_times(into: &mut String, text: &str, times: u64) -> Result<(), AllocError> {
    for _ in 0..times {
        into.push_str(text)?;
    }
    Ok(())
}

/// Adds a number of at least so many digits.
fn put_digits(into: &mut String, number: u64, digits: u64) -> Result<(), AllocError> {
    let mut least = 10u64;
    for _ in 1..digits {
        if number < least {
            into.push_str("0")?;
        }
        least = least.saturating_mul(10);
    }
    write!(into, "{number}")
}
