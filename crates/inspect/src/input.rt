// A bounded read of an input that need not end.
ghost use Rattle.std.specs.Prelude.{◌≡◌, ◌≤◌, IfOk, OnOk, IfSome, take, vec_len, vec_items};

use std::alloc::Global;
use std::io;
use std::io::Read;

// The input up to its end, or its first `limit` bytes.
pub fn read_at_most<R: Read>(heap: Global, input: &mut R, limit: usize) -> io::Result<Vec<u8>>
    ensures bound { IfOk result (λ bytes. vec_len bytes ≤ limit) }
    ensures first { IfOk result (λ bytes.
        IfSome (R.remaining input.old) (λ all. vec_items bytes ≡ take limit all)) }
{
    // Room for one byte more, so that the read that finds the end need not make any.
    let mut bytes = Vec::with_capacity(heap, limit.saturating_add(1))?;
    input.take(limit as u64).read_to_end(&mut bytes)?;
    // No more than `limit` bytes have come, which `read_to_end` does not say.
    bytes.truncate(limit);
    Ok(bytes)
}

#[cfg(test)]
mod tests {
    use super::*;
    use std::test::Fail;

    #[test]
    fn short_reads_are_joined(rt: HostRuntime) -> Result<(), Fail> {
        let mut input = b"abc".as_slice().chain(b"defg".as_slice());
        let bytes = read_at_most(rt.alloc(), &mut input, 5)?;
        assert_eq!(rt; bytes.as_slice(), b"abcde".as_slice());
        Ok(())
    }
}
