// A text in parts, one after the other.
ghost use Rattle.std.specs.Prelude.{◌≡◌};
ghost use Rattle.std.specs.Iterator.{YieldsFirstRef, item_count};
ghost use Rattle.text.specs.Parts.{parts};
ghost use Rattle.text.specs.Left.{parts_left};

// The parts of a text between the bytes `by` that are still to come: those of `rest`, or none. A type
// of its own, since the library's split has the type of a closure, which no field and no result names.
#[derive(Clone, Copy)]
pub struct Parts<'a> {
    rest: Option<&'a [u8]>,
    by: u8,
}

impl<'a> Parts<'a> {
    // All parts of a text: one more than it has bytes `by`, and a part may be empty.
    pub fn of(text: &'a [u8], by: u8) -> Parts<'a>
        ensures { parts_left result ≡ parts by text.now }
    {
        Parts {
            rest: Some(text),
            by,
        }
    }
}

impl<'a> Iterator for Parts<'a> {
    type Item = &'a [u8];

    ghost next_gives = { YieldsFirstRef parts_left };

    ghost remaining = { item_count parts_left };

    fn next(&mut self) -> Option<&'a [u8]> {
        let text = self.rest?;
        let by = self.by;
        let Some(end) = text.iter().position(|byte| *byte == by) else {
            self.rest = None;
            return Some(text);
        };
        self.rest = Some(&text[end + 1..]);
        Some(&text[..end])
    }
}
