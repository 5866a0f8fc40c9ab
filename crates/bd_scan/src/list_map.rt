//! Scans of a key map in memory.

use crate::scan::{Found, Scan};
use bd_keys::Bytes;
use bd_message::{KeyMap, ListMap, MapFault};
use std::alloc::Global;

impl Scan for ListMap {
    fn scan(
        &mut self,
        alloc: Global,
        from: &[u8],
        within: &[u8],
        most: usize,
    ) -> Result<Vec<Found>, MapFault> {
        let mut found = Vec::new(alloc);
        let mut low = Vec::from_slice(alloc, from)?;
        while found.len() < most {
            let Some((key, value)) = self.next(&low, within)? else {
                return Ok(found);
            };
            low = Vec::from_slice(alloc, &key)?;
            low.push(0)?;
            let key = Bytes::from_vec(key);
            let value = Bytes::from_vec(value);
            found.push(Found { key, value })?;
        }
        Ok(found)
    }
}
