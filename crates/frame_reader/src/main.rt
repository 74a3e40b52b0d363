// Reads frames from standard input and says each in words.
#![tactic(auto)]

mod words;

use lines::read_start;
use words::report_start;

// Says every line of the first characters of the input; what goes wrong is told in one line on standard error.
fn main(rt: HostRuntime) -> anyhow::Result<()> {
    let text = read_start(rt.alloc(), rt.stdin())?;
    rt.print(report_start(rt.alloc(), text.as_slice())?)?;
    Ok(())
}
