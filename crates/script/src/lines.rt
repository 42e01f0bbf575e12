// A line of a script: a note, or an operation with two fields.
ghost use Rattle.std.specs.Prelude.{◌≡◌};
ghost use Rattle.script.specs.Lines.{noted, operated, parsed, content};

use crate::codes::Code;
use crate::fields::Columns;
use crate::items::{Fault, Item, Operation};

const FIRST_FIELD: Columns = Columns { first: 3, last: 12 };

const SECOND_FIELD: Columns = Columns {
    first: 13,
    last: 16,
};

const NOTE_WIDTH: usize = 80;

// What the line says, or its first column that cannot stand.
pub fn parse(line: &[u8]) -> Result<Item<'_>, Fault>
    ensures { content result ≡ parsed line.now }
{
    if let [b'*', ..] = line {
        return note(line);
    }
    Ok(Item::Step(operation(line)?))
}

fn note(line: &[u8]) -> Result<Item<'_>, Fault>
    ensures { content result ≡ noted line.now }
{
    if line.len() > NOTE_WIDTH {
        return Err(Fault {
            column: NOTE_WIDTH as u32 + 1,
        });
    }
    Ok(Item::Note(line))
}

fn operation(line: &[u8]) -> Result<Operation, Fault>
    ensures { result ≡ operated line.now }
{
    let code = Code::of(line).ok_or(Fault { column: 1 })?;
    let first = FIRST_FIELD.bounded(line, code.first_limit())?;
    let second = SECOND_FIELD.bounded(line, code.second_limit())?;
    if line.len() > SECOND_FIELD.last as usize {
        return Err(Fault {
            column: SECOND_FIELD.last + 1,
        });
    }
    Ok(code.operation(first, second))
}
