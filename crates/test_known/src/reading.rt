// Rows of numbers from a text. A row is a line: a letter, and numbers with one space before each, in decimal
// digits, or in upper-case hexadecimal ones behind 0x. The numbers behind `=` stand in the last columns. From `#` on
// a line is a comment.

// The columns of a row: the letter, the numbers, and from this one on the two that are due.
pub(crate) const COLUMNS: usize = 8;

pub(crate) const DUE: usize = 6;

pub(crate) type Row = [u64; COLUMNS];

// The letter of a row with a byte that belongs to none.
const UNREADABLE: u64 = 1;

// Where a row is read: the column, and whether its digits are hexadecimal. A comment has the column behind the last.
#[derive(Clone, Copy)]
pub(crate) struct Place {
    column: usize,
    is_hexadecimal: bool,
}

// Before the letter of a row.
pub(crate) const AT_LETTER: Place = Place {
    column: 0,
    is_hexadecimal: false,
};

// The decimal number that begins in a column.
fn at_column(column: usize) -> Place {
    Place {
        column,
        is_hexadecimal: false,
    }
}

// Puts a digit behind those that a column has.
fn add_digit(row: &mut Row, place: Place, digit: u64) -> Place {
    let column = place.column % COLUMNS;
    let before = row[column] % 1152921504606846976;
    let weighed = if place.is_hexadecimal {
        before * 16
    } else {
        before * 10
    };
    row[column] = weighed.wrapping_add(digit);
    place
}

// Takes a byte behind the letter of a row.
fn take_in_number(row: &mut Row, place: Place, byte: u8) -> Place {
    match byte {
        b'0'..=b'9' => add_digit(row, place, (byte % 16) as u64),
        b'A'..=b'F' => add_digit(row, place, (byte % 16) as u64 + 9),
        b'x' => Place {
            column: place.column,
            is_hexadecimal: true,
        },
        b' ' => at_column(place.column % COLUMNS + 1),
        b'=' => at_column(DUE - 1),
        _ => {
            row[0] = UNREADABLE;
            place
        }
    }
}

// Takes a byte of a line, and answers where the row goes on.
pub(crate) fn take_in_line(row: &mut Row, place: Place, byte: u8) -> Place {
    if COLUMNS <= place.column {
        return place;
    }
    if byte == b'#' {
        return at_column(COLUMNS);
    }
    if place.column == 0 && row[0] == 0 {
        row[0] = byte as u64;
        return place;
    }
    take_in_number(row, place, byte)
}
