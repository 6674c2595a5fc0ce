// The blocks of an index whose leaders are valid, one after the other from the left of the directory.
ghost use Rattle.std.specs.Prelude.{◌≡◌, true, ◌^◌, ◌-◌, ◌≤◌, MatchOption};
ghost use Rattle.std.specs.Iterator.{at_most};
ghost use Rattle.index_rules.specs.Layout.{depth};
ghost use Rattle.index_rules.specs.Scan.{leader};
ghost use Rattle.index_rules.specs.ListBlock.{leads};
ghost use Rattle.index_directory.specs.Scans.{LeadersRead};
ghost use Rattle.index.specs.Blocks.{BlockRead};

use crate::listing::{BlockPlace, read_block};
use index_layout::header::{Header, pow2};

// It stands at the index that the next block leads, or at the directory's end.
#[derive(Drop)]
pub(crate) struct Blocks<'a> {
    pub words: &'a [u64],
    pub header: Header,
    pub next: usize,
    ghost read: { LeadersRead header words.now },
    ghost own: { leader words.now (depth words.now) next ≡ next },
    ghost inside: { next ≤ 2 ^ header.depth },
}

impl<'a> Blocks<'a> {
    pub(crate) fn new(words: &'a [u64], header: Header) -> Blocks<'a>
        requires { LeadersRead header words.now }
        ensures array { result.words.now ≡ words.now }
        ensures header { result.header ≡ header }
        ensures first { result.next ≡ 0 }
    {
        Blocks {
            words,
            header,
            next: 0,
        }
    }
}

impl<'a> Iterator for Blocks<'a> {
    ghost use Rattle.index.specs.NextBlocks.{NextBlock};

    type Item = BlockPlace;

    ghost next_gives = { NextBlock };

    ghost remaining = { λ s. at_most (2 ^ s.header.depth - s.next) };

    fn next(&mut self) -> Option<BlockPlace> {
        if self.next >= pow2(self.header.depth) {
            return None;
        }
        let place = read_block(self.words, self.header, self.next);
        self.next = place.next;
        Some(place)
    }
}
