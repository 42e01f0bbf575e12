// A board over a recorded line: the waits of a sender's waveform on standard input, the characters received on standard
// output.
use anyhow::anyhow;
use board::Board;
use line::{Partner, Recorded};
use marks::Recorders;
use registers::latch::Latched;
use script::LineBuffer;
use std::io::BufReader;
use std::{io, str};

// 8 data bits, no parity, 9600 baud, prescaler 1; the receiver on.
const COMMAND_2: u8 = 0x34;

const RECEIVER_ON: u8 = 0xC0;

// Shorter than a character, so that none is overrun.
const STEP: u64 = 64;

const RECEIVED: u8 = 64;

// Of a line that holds a wait only so many bytes are kept.
const WAIT_BYTES: usize = 96;

fn read_waits(rt: &HostRuntime) -> anyhow::Result<Vec<u32>> {
    let mut input = BufReader::new(rt.alloc(), rt.stdin())?;
    let mut buffer = LineBuffer::<WAIT_BYTES>::new(rt.alloc());
    let mut waits = Vec::new(rt.alloc());
    // Counted, so that the loop is seen to end.
    for _ in 0..u64::MAX {
        let Some(line) = buffer.read_line(&mut input)? else {
            break;
        };
        let Ok(text) = str::from_utf8(line) else {
            return Err(anyhow!("a wait is no text"));
        };
        waits.push(text.parse::<u32>()?)?;
    }
    Ok(waits)
}

// The clocks that the waveform lasts, and a frame more.
fn length_of(waits: &[u32]) -> u64 {
    waits.iter().fold(2_000, |clocks, wait| {
        clocks.saturating_add(u64::from(*wait).max(1))
    })
}

// Prints each character with the clock number at which the host reads it.
pub fn print_received(rt: &HostRuntime) -> anyhow::Result<()> {
    let waits = read_waits(rt)?;
    let clocks = length_of(&waits);
    let mut board = Board::power_up(Recorded::new(waits));
    let mut no_wires = [];
    let mut no_services = [];
    let mut recorders = Recorders::new(&mut no_wires, &mut no_services);
    let _ = board.write(Latched::new(1, true), COMMAND_2, &mut recorders);
    let _ = board.write(Latched::new(2, true), RECEIVER_ON, &mut recorders);
    for _ in 0..clocks / STEP + 1 {
        let _ = board.span(STEP, &mut recorders);
        let status = board
            .read(Latched::new(15, true), &mut recorders)
            .unwrap_or(0);
        if status & RECEIVED != 0 {
            let character = board
                .read(Latched::new(7, true), &mut recorders)
                .unwrap_or(0);
            let clock = board.clock();
            println!(rt; "{clock} {character}")?;
        }
    }
    Ok(())
}
