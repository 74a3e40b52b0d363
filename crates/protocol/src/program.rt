// The work of the program `rotation`: reads a text of calls from standard input and writes its answers to standard output.
ghost use Rattle.std.specs.Prelude.{◌≡◌, IfOk, vec_len};

use crate::text::answer_text;
use amounts::{Amount, Cents, Kilograms, Ranked};
use lines::read_start;
use std::alloc::{AllocError, Global};
use std::io::Write;

// The minute numbers and the amounts that are lent to the sheet.
fn areas(heap: Global) -> Result<(Vec<u16>, Vec<Ranked<Kilograms, Cents>>), AllocError>
    ensures { IfOk result (λ areas. (vec_len areas.0 ≡ 24000) × (vec_len areas.1 ≡ 3000)) }
{
    let minutes = vec![in heap; 0; 24000]?;
    let amounts = vec![in heap; Ranked::zero(); 3000]?;
    Ok((minutes, amounts))
}

// Answers the first characters of standard input on standard output; what goes wrong is the error that `main` tells.
pub fn serve(rt: &HostRuntime) -> anyhow::Result<()> {
    let text = read_start(rt.alloc(), rt.stdin())?;
    let (mut minutes, mut amounts) = areas(rt.alloc())?;
    let answers = answer_text(rt.alloc(), text.as_slice(), &mut minutes, &mut amounts)?;
    rt.stdout().write_all(answers.as_slice())?;
    Ok(())
}
