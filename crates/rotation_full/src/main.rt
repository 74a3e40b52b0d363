// The program `rotation` on a book of 64 legs and a text of more than 65,535 characters.
#![tactic(auto)]

use protocol::serve;

// A program is tried with one input and one output, so each text that is tried has a program of its own, with this main.
fn main(rt: HostRuntime) -> anyhow::Result<()> {
    serve(&rt)
}
