// A decimal number in its columns, right-justified with blanks before it.
ghost use Rattle.std.specs.Prelude.{◌≡◌, ◌+◌, ◌%◌, ◌^◌, ◌<◌, ◌&&◌, length, if◌then◌else◌, ◌==◌, nat_lt};
ghost use Rattle.listing.specs.Columns.{justified};

// Fills all the columns with the number, which has at most as many digits as there are columns. By hand: std says nothing
// of the bytes that `write!` leaves in a slice, and a `Vec`, of which it does, wants the heap.
#[tactic(auto, using(crate::proofs::Places::rest_more, crate::proofs::Places::byte_is, crate::proofs::Places::one_more))]
pub(crate) fn write_number(columns: &mut [u8], number: u64)
    requires fits { number < 10 ^ length columns.old }
    ensures { columns.new ≡ justified (length columns.old) number }
{
    // The division gives the last digit first.
    let mut rest = number;
    for (place, column) in columns.iter_mut().enumerate() {
        *column = byte_at(place, rest);
        rest /= 10;
    }
    columns.reverse();
}

// The byte so many places from the right, where `rest` is the number without the digits right of that place.
fn byte_at(place: usize, rest: u64) -> u8
    ensures { result ≡ (if nat_lt 0 place && rest == 0 then 32 else 48 + rest % 10) }
{
    if place > 0 && rest == 0 {
        b' '
    } else {
        b'0' + (rest % 10) as u8
    }
}
