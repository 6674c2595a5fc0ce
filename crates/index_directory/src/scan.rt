// The scan of the directory over its blocks.
ghost use Rattle.std.specs.Prelude.{◌≡◌, ◌≤◌, ◌<◌};
ghost use Rattle.std.proofs.Math.Option.{none};
ghost use Rattle.index_rules.specs.Put.{directory_tests};
ghost use Rattle.index_layout.specs.Headers.{Describes};
ghost use Rattle.index_directory.specs.Scans.{verdict_of, scan_at};

use index_layout::entry::{block_width, open_entry};
use index_layout::header::{Header, pow2};
use replies::Refusal;

// The block that a pass over the directory is in: its leading entry, and the index behind it.
#[derive(Clone, Copy)]
pub struct LedBlock {
    pub leading: u64,
    pub end: usize,
}

// Where a scan stands behind an entry: the block that it is in, and whether every entry so far equals its
// leader's.
#[derive(Clone, Copy)]
pub struct ScanStep {
    pub block: LedBlock,
    pub agree: bool,
}

// Scans entry `i`. It is in the block of the entry before, until that ends, and then leads one. An
// unequal entry does not stop the scan: a leader that is not valid may stand behind it.
fn scan_entry(before: ScanStep, entry: u64, i: usize, header: Header) -> Result<ScanStep, Refusal>
    requires { (header.depth ≤ 12) × (i < 4096) }
    ensures { result ≡ scan_at header.depth header.segments i entry before }
{
    let block = before.block;
    if i < block.end {
        let agree = before.agree && entry == block.leading;
        return Ok(ScanStep { block, agree });
    }
    let opened = open_entry(entry, header.depth, header.segments)?;
    let width = block_width(header.depth, opened.depth);
    if i & (width - 1) != 0 {
        return Err(Refusal::Broken);
    }
    let end = i + width;
    let block = LedBlock {
        leading: entry,
        end,
    };
    Ok(ScanStep {
        block,
        agree: before.agree,
    })
}

// One pass over the entries of the present directory: a leader is not valid, which is 'broken'; all are,
// but an entry differs from its leader, which is 'unmended'; or neither.
// By index: over the entries under `enumerate` the end is worked out from the depth in each turn, which takes put, remove and merge
// half as much time again; over a `zip` of indices and entries both ends are tested, which takes a third.
// The header stands beside the array here and in `free`, and in no struct with it: whoever calls has just read it.
pub fn scan(words: &[u64], header: Header) -> Result<(), Refusal>
    requires { Describes header words.now }
    ensures { verdict_of result ≡ directory_tests words.now none }
{
    let count = pow2(header.depth);
    let block = LedBlock { leading: 0, end: 0 };
    let mut step = ScanStep { block, agree: true };
    for i in 0..count {
        step = scan_entry(step, words[count + i], i, header)?;
    }
    if step.agree {
        Ok(())
    } else {
        Err(Refusal::Unmended)
    }
}
