// The first characters of an input, which the programs read.
ghost use Rattle.std.specs.Prelude.{◌≡◌, take, IfOk, IfSome};

use anyhow::anyhow;
use std::alloc::Global;
use std::io::Read;

// How many characters of the input are read.
pub const LIMIT: usize = 65535;

// The first characters of an input: 65,535 of them, or all, if there are no more. It fails where the input cannot be read, or
// for want of memory.
pub fn read_start<R: Read + Drop>(heap: Global, input: R) -> anyhow::Result<Vec<u8>>
    ensures { IfOk result (λ text. IfSome (R.remaining input) (λ characters. text.items ≡ take 65535 characters)) }
{
    let mut text = Vec::new(heap);
    match input.take(LIMIT as u64).read_to_end(&mut text) {
        Ok(_count) => Ok(text),
        Err(error) => Err(anyhow!(format!(in heap; "the input cannot be read: {error}")?)),
    }
}
