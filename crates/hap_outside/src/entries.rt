// The entries of a source in memory.
ghost use Rattle.std.specs.Prelude.{◌≡◌, ◌<◌, ◌+◌, ◌^◌, option_map, option_copied, IfSome, IfOk, length, map};
ghost use Rattle.hap_outside.specs.BytesState.{same_name, lookup};
ghost use Rattle.hap_outside.specs.Entries.{named_bytes, bytes_at, left_at, IsWithin};

use std::alloc::{AllocError, Global};

/// A name, which is none for standard input, and the bytes under it.
#[derive(Drop)]
pub struct Entry {
    name: Option<String>,
    pub bytes: Vec<u8>,
}

impl Entry {
    pub fn new(alloc: Global, name: Option<&str>, bytes: &[u8]) -> Result<Entry, AllocError>
        ensures { IfOk result (λ entry. named_bytes entry ≡ (option_copied name.entry, bytes.now)) }
    {
        let name = match name {
            None => None,
            Some(text) => Some(String::from_str(alloc, text)?),
        };
        let bytes = Vec::from_slice(alloc, bytes)?;
        Ok(Entry { name, bytes })
    }

    fn is_under(&self, name: Option<&str>) -> bool
        ensures { result ≡ same_name (named_bytes self.now).0 (option_copied name.entry) }
    {
        match &self.name {
            None => name.is_none(),
            Some(has) => match name {
                None => false,
                Some(wanted) => has.as_str() == wanted,
            },
        }
    }
}

/// What is left of the entry that is open.
pub fn rest_at(entries: &[Entry], open_at: Option<usize>, taken: usize) -> &[u8]
    requires { IsWithin entries.now open_at taken }
    ensures rest { result.now ≡ left_at open_at taken entries.now }
    ensures fits { taken + length result.now < 2 ^ 64 }
{
    match open_at {
        None => &[],
        Some(place) => &entries[place].bytes[taken..],
    }
}

/// The place of the last entry under the name.
pub fn find(entries: &[Entry], name: Option<&str>) -> Option<usize>
    ensures found { option_map (bytes_at entries.now) result
        ≡ lookup (map named_bytes entries.now) (option_copied name.entry) }
    ensures within { IfSome result (λ place. place < length entries.now) }
{
    match entries {
        [] => None,
        [first, rest @ ..] => match find(rest, name) {
            Some(place) => Some(place + 1),
            None => { if first.is_under(name) { Some(0) } else { None } }
        },
    }
}
