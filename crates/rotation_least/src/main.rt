// The program `rotation` on the least kilograms and a text that ends without a line feed.
#![tactic(auto)]

use protocol::serve;

// A program is tried with one input and one output, so each text that is tried has a program of its own, with this main.
fn main(rt: HostRuntime) -> anyhow::Result<()> {
    serve(&rt)
}
