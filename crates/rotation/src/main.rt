// Times a formula book under a charge book from standard input to standard output, a line for each line.
#![tactic(auto)]

use protocol::serve;

// A program is tried with one input and one output, so each text that is tried has a program of its own, with this main.
fn main(rt: HostRuntime) -> anyhow::Result<()> {
    serve(&rt)
}
