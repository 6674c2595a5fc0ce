// The plain table of document 01, with an entry for each key that the run uses. It is told what was done and
// never sees the index's array.
use test_model::Change;

// The keys of a run.
pub const KEYS: usize = 48;

// A key, and its value where it has one.
#[derive(Clone, Copy, Default)]
pub struct Entry {
    pub key: u64,
    pub value: Option<u64>,
}

pub type Table = [Entry; KEYS];

impl Entry {
    // Tells the entry of a done call on its key: a put sets its value, whether it had one or not, a remove
    // takes it away, any other call leaves it.
    pub fn tell(&mut self, change: Change) {
        match change {
            Change::Put { value, .. } => self.value = Some(value),
            Change::Remove { .. } => self.value = None,
            _ => {}
        }
    }
}

// How many keys have a value.
pub fn size_of(table: &Table) -> usize {
    table.iter().filter(|entry| entry.value.is_some()).count()
}
