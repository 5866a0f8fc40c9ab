//! Where messages on ranges of keys stand, by the prefixes of their keys.

ghost use Rattle.std.specs.Prelude.{◌≡◌, ◌<◌, ◌≤◌, length};
ghost use Rattle.bd_message.specs.Freeing.{stem};
ghost use Rattle.bd_node.specs.Index.{IsNewestAmong, IsNextAmong, is_range_at};
ghost use Rattle.bd_node.specs.Stems.{AreByStem, IsPassed, IsUpTo, is_found, newer, older, shared};

use crate::index::{first_of, last_of};
use crate::touching::touches;
use bd_message::Message;

/// The key that a message is on, or the prefix of its keys.
pub fn stem(message: &Message) -> &[u8]
    ensures { result.now ≡ stem message.now }
{
    match message {
        Message::Put { key, .. } => key.as_slice(),
        Message::Del { key } => key.as_slice(),
        Message::Patch { key, .. } => key.as_slice(),
        Message::Cut { prefix, .. } => prefix.as_slice(),
        Message::Goto { prefix, .. } => prefix.as_slice(),
    }
}

/// How many of the places have a prefix that isn't above a key. It is found by halving.
pub fn up_to(items: &[Message], stems: &[usize], key: &[u8], count: usize) -> usize
    requires { AreByStem items.now count stems.now }
    ensures { IsUpTo items.now stems.now key.now result }
{
    let mut low = 0;
    let mut high = stems.len();
    while low < high {
        let middle = low + (high - low) / 2;
        if key.cmp(stem(&items[stems[middle]])).is_lt() {
            high = middle;
        } else {
            low = middle + 1;
        }
    }
    low
}

// How long the longest beginning of a key is that isn't above a prefix.
fn shared(own: &[u8], key: &[u8]) -> usize
    ensures value { result ≡ shared own.now key.now }
    ensures within { result ≤ length key.now }
{
    let [a, own @ ..] = own else {
        return 0;
    };
    let [b, key @ ..] = key else {
        return 0;
    };
    if *a < *b {
        return 0;
    }
    if *b < *a {
        return key.len() + 1;
    }
    shared(own, key) + 1
}

// The next places down, of those below one: past those whose prefix no key has that begins as this.
fn passed(items: &[Message], stems: &[usize], key: &[u8], at: usize) -> usize
    requires stems { AreByStem items.now (length items.now) stems.now }
    requires some { 0 < at }
    requires within { at ≤ length stems.now }
    ensures { IsPassed items.now stems.now key.now at result }
{
    let own = stem(&items[stems[at - 1]]);
    if key.starts_with(own) {
        return at - 1;
    }
    up_to(items, stems, &key[..shared(own, key)], items.len())
}

/// The place of the oldest message from a place on that can change what stands at a key.
pub fn oldest(items: &[Message], stems: &[usize], from: usize, key: &[u8]) -> Option<usize>
    requires { AreByStem items.now (length items.now) stems.now }
    ensures { IsNextAmong is_range_at items.now from key.now result }
{
    let mut at = stems.len();
    let mut found = None;
    while at > 0 {
        found = older(items, stems[at - 1], from, key, found);
        at = passed(items, stems, key, at);
    }
    found
}

// Whether the message at a place, which is not before another, can change what stands at a key.
fn is_found(items: &[Message], place: usize, from: usize, key: &[u8]) -> bool
    requires { place < length items.now }
    ensures { result ≡ is_found items.now place from key.now }
{
    from <= place && touches(&items[place], key)
}

// The older of a message found before and the one at a place, where it is found too.
fn older(
    items: &[Message],
    place: usize,
    from: usize,
    key: &[u8],
    found: Option<usize>,
) -> Option<usize>
    requires { place < length items.now }
    ensures { result ≡ older items.now place from key.now found }
{
    if is_found(items, place, from, key) {
        return first_of(Some(place), found);
    }
    found
}

/// The place of the newest message from a place on that can change what stands at a key.
pub fn newest(items: &[Message], stems: &[usize], from: usize, key: &[u8]) -> Option<usize>
    requires { AreByStem items.now (length items.now) stems.now }
    ensures { IsNewestAmong is_range_at items.now from key.now result }
{
    let mut at = stems.len();
    let mut found = None;
    while at > 0 {
        found = newer(items, stems[at - 1], from, key, found);
        at = passed(items, stems, key, at);
    }
    found
}

// The newer of a message found before and the one at a place, where it is found too.
fn newer(
    items: &[Message],
    place: usize,
    from: usize,
    key: &[u8],
    found: Option<usize>,
) -> Option<usize>
    requires { place < length items.now }
    ensures { result ≡ newer items.now place from key.now found }
{
    if is_found(items, place, from, key) {
        return last_of(Some(place), found);
    }
    found
}
