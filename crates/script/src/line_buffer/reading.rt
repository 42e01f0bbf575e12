ghost use Rattle.script.specs.Inputs.{after_first, first_kept};
ghost use Rattle.std.specs.Prelude.{◌≡◌, ◌≤◌, length, Some, None, IfSome, IfOk, OnOk, if◌then◌else◌, option_copied};

use super::LineBuffer;
use std::io;
use std::io::{ErrorKind, Read};

impl<const KEPT: usize> LineBuffer<KEPT> {
    /// Reads the next line without its line feed, and gives the bytes kept of it; nothing at the end of the input. A last line without a
    /// line feed counts if it has a byte.
    pub fn read_line<R: Read>(&mut self, input: &mut R) -> io::Result<Option<&[u8]>>
        ensures few { IfOk result (λ given. IfSome given (λ line. length line.now ≤ KEPT)) }
        ensures line { IfSome (R.remaining input.old) (λ bytes. IfOk result (λ given. option_copied given ≡ first_kept KEPT bytes)) }
        ensures rest { OnOk result (IfSome (R.remaining input.old) (λ bytes. R.remaining input.new ≡ Some (after_first bytes))) }
    {
        if self.fill(input)? {
            Ok(Some(self.bytes()))
        } else {
            Ok(None)
        }
    }

    // Whether there was a line.
    fn fill<R: Read>(&mut self, input: &mut R) -> io::Result<bool>
        ensures line { IfSome (R.remaining input.old) (λ bytes. IfOk result (λ any. (if any then Some self.new else None) ≡ first_kept KEPT bytes)) }
        ensures rest { OnOk result (IfSome (R.remaining input.old) (λ bytes. R.remaining input.new ≡ Some (after_first bytes))) }
    {
        self.clear();
        let mut any = false;
        // Counted, so that the loop is seen to end.
        for _ in 0..u64::MAX {
            let mut byte = [0u8; 1];
            match input.read(&mut byte) {
                Ok(0) => return Ok(any),
                Ok(_) if byte[0] == b'\n' => return Ok(true),
                Ok(_) => {
                    any = true;
                    self.push(byte[0])?;
                }
                Err(error) => return Err(error),
            }
        }
        Err(io::Error::from(ErrorKind::Interrupted))
    }
}

#[cfg(test)]
mod tests {
    use crate::LineBuffer;
    use std::io;
    use std::io::{ErrorKind, Read};

    #[derive(Drop)]
    struct Interrupted;

    impl Read for Interrupted {
        fn read(&mut self, _buf: &mut [u8]) -> io::Result<usize> {
            Err(io::Error::from(ErrorKind::Interrupted))
        }
    }

    #[test]
    fn a_last_line_counts_if_it_has_a_byte(rt: HostRuntime) -> io::Result<()> {
        let mut input = b"ab\n\nc".as_slice();
        let mut line = LineBuffer::<81>::new(rt.alloc());
        assert!(rt; line.read_line(&mut input)? == Some(b"ab".as_slice()));
        assert!(rt; line.read_line(&mut input)? == Some(b"".as_slice()));
        assert!(rt; line.read_line(&mut input)? == Some(b"c".as_slice()));
        assert!(rt; line.read_line(&mut input)? == None);
        Ok(())
    }

    #[test]
    fn an_interrupted_read_is_an_error(rt: HostRuntime) -> io::Result<()> {
        let mut input = b"ab\nc".as_slice().chain(Interrupted);
        let mut line = LineBuffer::<81>::new(rt.alloc());
        assert!(rt; line.read_line(&mut input)? == Some(b"ab".as_slice()));
        assert!(rt; line.read_line(&mut input).is_err());
        Ok(())
    }
}
