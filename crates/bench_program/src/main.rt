// Runs the script on standard input against a board with a loopback plug, and prints the listing.
// One of several programs alike, since the gate runs a program on one stored input.

#![tactic(auto)]

use std::io;

fn main(rt: HostRuntime) -> io::Result<()> {
    programs::list(&rt)
}
