// Runs the script on standard input against a board with a loopback plug, and prints the marks of both recorders.
// One of several programs alike, since the gate runs a program on one stored input.

#![tactic(auto)]

use std::io;

fn main(rt: HostRuntime) -> io::Result<()> {
    programs::print_marks(&rt)
}
