// Checks of what no script can reach: halves that are kept, places that are too short, and the end of the clock.

#![tactic(auto)]

#[cfg(test)]
mod tests {
    use board::Board;
    use line::Loopback;
    use marks::Recorders;
    use refusals::Refusal;
    use registers::latch::Latched;
    use std::test::Fail;

    fn number_of<T: Drop>(answer: Result<T, Refusal>) -> u8 {
        match answer {
            Ok(_) => 0,
            Err(refusal) => u8::from(refusal),
        }
    }

    // The 8086 family, IAE set, level 2 enabled and EXTINT high.
    fn interrupting(board: &mut Board<Loopback>, recorders: &mut Recorders<'_>) {
        let _ = board.write(Latched::new(0, true), 2, recorders);
        let _ = board.write(Latched::new(4, true), 0xA0, recorders);
        let _ = board.write(Latched::new(10, true), 4, recorders);
        let _ = board.set_pin(17, true, recorders);
    }

    #[test]
    fn a_begun_acknowledge_refuses_another(rt: HostRuntime) -> Result<(), Fail> {
        let mut no_wires = [];
        let mut no_services = [];
        let mut recorders = Recorders::new(&mut no_wires, &mut no_services);
        let mut board = Board::power_up(Loopback::new());
        interrupting(&mut board, &mut recorders);
        let Ok(half) = board.begin_acknowledge(&mut recorders) else {
            return Err(Fail::new("the first pulse is refused"));
        };
        let answer = match board.begin_acknowledge(&mut recorders) {
            Ok(other) => number_of(board.finish_acknowledge(other, &mut recorders)),
            Err(refusal) => u8::from(refusal),
        };
        let finished = board.finish_acknowledge(half, &mut recorders).unwrap_or(0);
        assert!(rt; answer == 7 && finished == 66);
        Ok(())
    }

    #[test]
    fn a_reset_forgets_a_begun_acknowledge(rt: HostRuntime) -> Result<(), Fail> {
        let mut no_wires = [];
        let mut no_services = [];
        let mut recorders = Recorders::new(&mut no_wires, &mut no_services);
        let mut board = Board::power_up(Loopback::new());
        interrupting(&mut board, &mut recorders);
        let Ok(half) = board.begin_acknowledge(&mut recorders) else {
            return Err(Fail::new("the first pulse is refused"));
        };
        board.reset(&mut recorders);
        assert!(rt; number_of(board.finish_acknowledge(half, &mut recorders)) == 8);
        Ok(())
    }

    #[test]
    fn a_place_shorter_than_the_look_is_refused(rt: HostRuntime) {
        let mut board = Board::power_up(Loopback::new());
        let mut place = [9u8; 1];
        let answer = number_of(board.look(&[15, 0], &mut place));
        assert!(rt; answer == 14);
        assert!(rt; place[0] == 9);
    }

    #[test]
    fn an_unselected_chip_is_refused(rt: HostRuntime) {
        let mut no_wires = [];
        let mut no_services = [];
        let mut recorders = Recorders::new(&mut no_wires, &mut no_services);
        let mut board = Board::power_up(Loopback::new());
        let answer = number_of(board.read(Latched::new(0, false), &mut recorders));
        assert!(rt; answer == 2);
    }

    #[test]
    fn a_kept_half_answers_the_newer_level(rt: HostRuntime) -> Result<(), Fail> {
        let mut no_wires = [];
        let mut no_services = [];
        let mut recorders = Recorders::new(&mut no_wires, &mut no_services);
        let mut board = Board::power_up(Loopback::new());
        interrupting(&mut board, &mut recorders);
        let Ok(kept) = board.begin_acknowledge(&mut recorders) else {
            return Err(Fail::new("the first pulse is refused"));
        };
        board.reset(&mut recorders);
        interrupting(&mut board, &mut recorders);
        let newer = board.begin_acknowledge(&mut recorders);
        let answer = board.finish_acknowledge(kept, &mut recorders).unwrap_or(0);
        let refused = match newer {
            Ok(half) => number_of(board.finish_acknowledge(half, &mut recorders)),
            Err(_) => 0,
        };
        assert!(rt; answer == 66 && refused == 8);
        Ok(())
    }

    #[test]
    fn a_look_ends_at_a_register_above_15(rt: HostRuntime) {
        let mut board = Board::power_up(Loopback::new());
        let mut place = [9u8; 4];
        let answer = number_of(board.look(&[15, 16, 0], &mut place));
        assert!(rt; answer == 15);
        assert!(rt; place[0] == 48 && place[1] == 9 && place[2] == 9 && place[3] == 9);
    }

    // Spans of the longest length bring the clock number to its end; one clock more is refused.
    #[test]
    fn the_clock_number_ends(rt: HostRuntime) {
        let mut no_wires = [];
        let mut no_services = [];
        let mut recorders = Recorders::new(&mut no_wires, &mut no_services);
        let mut board = Board::power_up(Loopback::new());
        for _ in 0..29_802_322u32 {
            let _ = board.span(16_777_216, &mut recorders);
        }
        let early = number_of(board.span(6_504_449, &mut recorders));
        let last = number_of(board.span(6_504_448, &mut recorders));
        let past = number_of(board.span(1, &mut recorders));
        assert!(rt; early == 10 && last == 0 && past == 10);
        assert!(rt; board.clock() == 500_000_000_000_000);
    }
}
