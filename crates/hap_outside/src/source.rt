// A source of bytes by what it means, and the call that reads all of it.
ghost use Rattle.std.specs.Prelude.{◌≡◌, ◌≤◌, ◌<◌, ◌+◌, List, ℕ, Bool, true, false, length, IfOk, OnOk};
ghost use Rattle.std.specs.Prelude.{OnErr, IsErrOf, option_copied};
ghost use Rattle.std.specs.declared.option.Option.{Option};
ghost use Rattle.std.specs.Io.{ReadsAtMost};
ghost use Rattle.std.specs.Io.KnownBytes.{ReadConsumes, Consumes, IsAtEnd};
ghost use Rattle.hap_outside.specs.Causes.{Rose, HasCause};
ghost use Rattle.hap_outside.specs.Stores.{Store, Opens};

use std::alloc::Global;

/// A call on a source or a sink failed. Its count of faults rose in that call.
#[derive(Clone, Copy, Debug, PartialEq, Eq)]
pub struct Failed;

/// Why [`read_all`] has no bytes.
#[derive(Clone, Copy, Debug, PartialEq, Eq)]
pub enum ReadAll {
    /// A read failed.
    Fault,
    /// More bytes came than the limit.
    TooLong,
    /// There was no memory.
    Memory,
}

/// Bytes under names, of which one name is begun once and then read from front to end.
pub trait Source {
    /// The bytes under each name, where they are told. The name None is standard input.
    ghost store: { Self → Option Store };

    /// The bytes not yet read, where they are told.
    ghost left: { Self → Option (List ℕ) };

    /// Whether `begin` was called.
    ghost begun: { Self → Bool };

    /// How many calls failed. The count is of 64 bits, and stands still at its last value.
    ghost faults: { Self → ℕ };

    /// Opens what stands under the name, or standard input. The source is begun afterwards, whatever
    /// the answer.
    fn begin(&mut self, name: Option<&str>) -> Result<(), Failed>
        requires { begun self.old ≡ false }
        ensures begun { begun self.new ≡ true }
        ensures store { store self.new ≡ store self.old }
        ensures opens { Opens (store self.old) (option_copied name.entry) (left self.new) result }
        ensures stays { OnErr result (left self.new ≡ left self.old) }
        ensures cause { HasCause (faults self.old) (faults self.new) result };

    /// Takes the next bytes that are left and puts them first in the buffer. The answer is how many
    /// these are: none only where the buffer is empty or nothing is left. After a fault the bytes in
    /// the buffer are free.
    fn read(&mut self, buf: &mut [u8]) -> Result<usize, Failed>
        requires { begun self.old ≡ true }
        ensures begun { begun self.new ≡ true }
        ensures store { store self.new ≡ store self.old }
        ensures bound { ReadsAtMost result buf.new }
        ensures bytes { ReadConsumes (left self.old) (left self.new) result buf.new }
        ensures cause { HasCause (faults self.old) (faults self.new) result };

    /// Before `begin` nothing is left.
    ghost none_before: { (s : Self) → begun s ≡ false → IsAtEnd (left s) };
}

/// Reads all bytes that are left, where these are no more than the limit. After an error the bytes read
/// so far stay taken.
pub fn read_all<S: Source>(alloc: Global, source: &mut S, limit: usize) -> Result<Vec<u8>, ReadAll>
    requires begun { S.begun source.old ≡ true }
    requires limit { limit ≤ 67108864 }
    ensures begun { S.begun source.new ≡ true }
    ensures store { S.store source.new ≡ S.store source.old }

    // All bytes, and then none is left.
    ensures bytes { IfOk result (λ bytes. Consumes (S.left source.old) (S.left source.new) bytes.items) }
    ensures end { OnOk result (IsAtEnd (S.left source.new)) }
    ensures within { IfOk result (λ bytes. length bytes.items ≤ limit) }

    // One byte more than the limit was read, and no more than the limit before a fault.
    ensures too_long { IsErrOf result ReadAll.TooLong → (bytes : List ℕ)
        × Consumes (S.left source.old) (S.left source.new) bytes × (length bytes ≡ limit + 1) }

    ensures stopped { IsErrOf result ReadAll.Fault → (bytes : List ℕ)
        × Consumes (S.left source.old) (S.left source.new) bytes × (length bytes ≤ limit) }

    // A fault comes only where the count rose, and always where it is greater after than before.
    ensures fault { IsErrOf result ReadAll.Fault → Rose (S.faults source.old) (S.faults source.new) }
    ensures told { S.faults source.old < S.faults source.new → IsErrOf result ReadAll.Fault }
    ensures later { S.faults source.old ≤ S.faults source.new }
{
    let mut bytes = Vec::new(alloc);
    let mut buffer = [0u8; 4096];
    'turns: while bytes.len() <= limit {
        let room = (limit + 1 - bytes.len()).min(buffer.len());
        match source.read(&mut buffer[..room]) {
            Ok(0) => return Ok(bytes),
            Ok(count) => {
                if bytes.extend_from_slice(&buffer[..count]).is_err() {
                    return Err(ReadAll::Memory);
                }
            }
            Err(Failed) => return Err(ReadAll::Fault),
        }
    }
    Err(ReadAll::TooLong)
}
