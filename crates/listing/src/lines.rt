// One line of the listing.
ghost use Rattle.std.specs.Prelude.{◌≡◌, ◌^◌, ◌<◌};
ghost use Rattle.listing.specs.Layout.{layout, printed};

use crate::number::write_number;

// What one line says.
#[derive(Clone, Copy)]
pub struct Line {
    // the number of the script's line
    pub number: u32,
    // the answer, 0 where there is none, or the refusal's number. It is a number and no `Refusal`: the columns show any number, and
    // a narrower type would ask more of callers
    pub answer: Result<u8, u8>,
    // the clock's number, or the column that refuses a script's line
    pub last: u64,
}

// The line's columns, with the line feed that ends it.
pub fn write_line(line: &Line) -> [u8; 29]
    requires number { line.now.number < 10 ^ 5 }
    requires last { line.now.last < 10 ^ 16 }
    ensures columns { result ≡ layout line.now }
    ensures printed { result ≡ printed line.now }
{
    let word = match line.answer {
        Ok(_) => b"OK",
        Err(_) => b"NO",
    };
    let answer = line.answer.unwrap_or_else(|number| number);
    let mut bytes = [b' '; 29];
    write_number(&mut bytes[0..5], u64::from(line.number));
    bytes[6..8].copy_from_slice(word);
    write_number(&mut bytes[8..12], u64::from(answer));
    write_number(&mut bytes[12..28], line.last);
    bytes[28] = b'\n';
    bytes
}
