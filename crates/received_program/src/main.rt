// Runs a board over a recorded line, whose waits stand on standard input, and prints the characters that it received.

#![tactic(auto)]

fn main(rt: HostRuntime) -> anyhow::Result<()> {
    programs::print_received(&rt)
}
