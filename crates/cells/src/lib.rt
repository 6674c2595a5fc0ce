// What any store of keys and values does in a cell of a row of cells: where it stands, what it holds, and the
// stores into it by the call's budget.
#![tactic(auto)]

ghost use Rattle.std.specs.Prelude.{◌≡◌, ◌*◌, ◌≤◌, ◌<◌, length};
ghost use Rattle.stores.specs.Executed.{Executed, due_limit};
ghost use Rattle.cells.specs.Cells.{key_address, value_address, key_at, value_at, value_stored, record_stored, key_cleared};

use stores::Budget;

// A record: a key and its value.
#[derive(Clone, Copy)]
pub struct Record {
    pub key: u64,
    pub value: u64,
}

// The address of the key of a cell in the row at `base`.
pub fn key_address(base: usize, cell: usize) -> usize
    requires { key_address base cell < 18446744073709551616 }
    ensures { result ≡ key_address base cell }
{
    base + 2 * cell
}

// The address of its value.
pub fn value_address(base: usize, cell: usize) -> usize
    requires { value_address base cell < 18446744073709551616 }
    ensures { result ≡ value_address base cell }
{
    base + (2 * cell + 1)
}

// The key of a cell.
pub fn key_at(words: &[u64], base: usize, cell: usize) -> u64
    requires { key_address base cell < length words.now }
    ensures { result ≡ key_at words.now base cell }
{
    words[key_address(base, cell)]
}

// Its value.
pub fn value_at(words: &[u64], base: usize, cell: usize) -> u64
    requires { value_address base cell < length words.now }
    ensures { result ≡ value_at words.now base cell }
{
    words[value_address(base, cell)]
}

// Stores a new value into a cell.
pub fn store_value(words: &mut [u64], base: usize, cell: usize, value: u64, budget: &mut Budget)
    requires { (value_address base cell < length words.old) × (budget.old.due ≤ 2 * due_limit) }
    ensures { Executed (value_stored base cell value) budget.old words.old budget.new words.new }
{
    budget.store(words, value_address(base, cell), value);
}

// Stores value, then key: a cut between the two shows no key with another's value.
pub fn store_record(words: &mut [u64], base: usize, cell: usize, new: Record, budget: &mut Budget)
    requires { (value_address base cell < length words.old) × (budget.old.due ≤ 2 * due_limit) }
    ensures { Executed (record_stored base cell new.key new.value) budget.old words.old budget.new words.new }
{
    budget.store(words, value_address(base, cell), new.value);
    budget.store(words, key_address(base, cell), new.key);
}

// Clears the key of a cell.
pub fn clear_key(words: &mut [u64], base: usize, cell: usize, budget: &mut Budget)
    requires { (key_address base cell < length words.old) × (budget.old.due ≤ 2 * due_limit) }
    ensures { Executed (key_cleared base cell) budget.old words.old budget.new words.new }
{
    budget.store(words, key_address(base, cell), 0);
}
