// A field: right-justified decimal digits in its columns, blanks before them.
ghost use Rattle.std.specs.Prelude.{◌≡◌, ◌+◌, ◌<◌, ◌≤◌, IfOk};
ghost use Rattle.script.specs.Fields.{field_of, bounded_of};

use crate::items::Fault;

// The columns of a field, counted from 1: at most ten of a line's sixteen.
#[derive(Clone, Copy)]
pub(crate) struct Columns {
    pub first: u32,
    pub last: u32,
    ghost some: { 0 < first },
    ghost narrow: { last < first + 10 },
    ghost within: { last ≤ 16 },
}

impl Columns {
    // The field's number, which is at most `limit`.
    pub(crate) fn bounded(self, line: &[u8], limit: u64) -> Result<u64, Fault>
        ensures value { result ≡ bounded_of self.first self.last limit line.now }
        ensures within { IfOk result (λ number. number ≤ limit) }
    {
        let number = self.field(line)?;
        if number <= limit {
            Ok(number)
        } else {
            Err(Fault { column: self.first })
        }
    }

    fn field(self, line: &[u8]) -> Result<u64, Fault>
        ensures { result ≡ field_of self.first self.last line.now }
    {
        // The digits so far, or nothing before the first.
        let mut number: Option<u64> = None;
        let mut bytes = line.get(self.first as usize - 1..).unwrap_or(&[]).iter();
        // The column is counted, since a fault names it. A zip is no plainer: it would end where the line does, with no fault.
        for column in self.first..=self.last {
            let byte = *bytes.next().ok_or(Fault { column })?;
            if byte.is_ascii_digit() {
                number = Some(number.unwrap_or(0) * 10 + u64::from(byte - b'0'));
            } else if byte != b' ' || number.is_some() || column == self.last {
                return Err(Fault { column });
            }
        }
        Ok(number.unwrap_or(0))
    }
}
