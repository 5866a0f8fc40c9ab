//! Replies as text.

use bd_command::Reply;
use bd_limits::{MAX_LISTING, MAX_READ};
use bd_script::{REPLY_SIZE, reply};
use std::alloc::Global;
use std::test::Fail;

/// The text of a reply, without its newline.
pub fn text_of(alloc: Global, answer: &Reply) -> Result<String, Fail> {
    let is_short = match answer {
        Reply::Bytes(bytes) => bytes.len() <= MAX_READ as usize,
        Reply::Names(listing) => listing.names.len() <= MAX_LISTING,
        _ => true,
    };
    if !is_short {
        return Err(Fail::new("a reply past its limit"));
    }
    let mut into = [0; REPLY_SIZE];
    let end = reply(answer, &mut into);
    let text = str::from_utf8(&into[..end])?;
    Ok(String::from_str(alloc, text.trim_end())?)
}
