ghost use Rattle.script.specs.Lines.{kept_bytes, DecidedBy, StartDecides};
ghost use Rattle.std.specs.Prelude.{◌≡◌, ◌≤◌, [], ◌∷◌, ◌++◌, length, take, is_ok, if◌then◌else◌};

use super::LineBuffer;
use std::alloc::{AllocError, Global};

impl<const KEPT: usize> LineBuffer<KEPT> {
    /// An empty line.
    pub fn new(heap: Global) -> LineBuffer<KEPT>
        ensures { result ≡ [] }
    {
        LineBuffer {
            bytes: Vec::new(heap),
        }
    }

    /// The next byte of the line, which is kept if it is among the first `KEPT`.
    pub fn push(&mut self, byte: u8) -> Result<(), AllocError>
        ensures { self.new ≡ (if is_ok result then take KEPT (self.old ++ byte ∷ []) else self.old) }
    {
        if self.bytes.len() < KEPT {
            self.bytes.push(byte)?;
        }
        Ok(())
    }

    /// Another line begins.
    pub fn clear(&mut self)
        ensures { self.new ≡ [] }
    {
        self.bytes.clear();
    }

    /// The bytes kept. The first 81 of a line say what the whole line does, and so do more than these.
    #[tactic(auto, using(crate::proofs::Start::start_decides, crate::proofs::Start::more_decides))]
    pub fn bytes(&self) -> &[u8]
        ensures value { result.now ≡ self.now }
        ensures few { length result.now ≤ KEPT }
        ensures start { StartDecides }
        ensures more { kept_bytes ≤ KEPT → DecidedBy KEPT }
    {
        self.bytes.as_slice()
    }
}

#[cfg(test)]
mod tests {
    use super::LineBuffer;
    use std::alloc::AllocError;

    #[test]
    fn a_long_line_keeps_its_first_81_bytes(rt: HostRuntime) -> Result<(), AllocError> {
        let mut line = LineBuffer::<81>::new(rt.alloc());
        for byte in 0..100u8 {
            line.push(byte)?;
        }
        let kept = line.bytes();
        assert!(rt; kept.len() == 81 && kept[0] == 0 && kept[80] == 80);
        line.clear();
        assert!(rt; line.bytes().is_empty());
        Ok(())
    }
}
