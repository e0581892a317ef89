// The front of what is left, for a source in memory.
ghost use Rattle.std.specs.Prelude.{◌≡◌, ◌++◌, min, take, drop, length};

/// Copies as many of the bytes as fit to the front of the buffer, and answers how many these are.
pub fn copy_front(buf: &mut [u8], bytes: &[u8]) -> usize
    ensures count { result ≡ min (length buf.old) (length bytes.now) }
    ensures copied { buf.new ≡ take result bytes.now ++ drop result buf.old }
{
    let count = buf.len().min(bytes.len());
    buf[..count].copy_from_slice(&bytes[..count]);
    count
}
