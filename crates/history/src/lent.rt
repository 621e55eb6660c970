// The records in the lent bytes: a hundred bytes each, from the front.
ghost use Rattle.std.specs.Prelude.{◌≡◌, List, ◌++◌, not, ◌&&◌, ℕ, ◌+◌, ◌*◌, ◌<◌, ◌≤◌, leb, length, take, drop};
ghost use Rattle.rules.specs.Sizes.{record_bytes};
ghost use Rattle.rules.specs.Lists.{same};
ghost use Rattle.rules.specs.Records.{record_of, capacity, stored};
ghost use Rattle.history.specs.History.{among, Looking, Adding, Noting, Noted};

use points::sizes::RECORD_BYTES;

// How many records the lent bytes have room for.
#[tactic(auto, unfolding(rules::specs::Records::capacity))]
pub fn capacity_of(history: &[u8]) -> usize
    ensures { result ≡ capacity history.now }
{
    history.len() / RECORD_BYTES
}

// The stored record is this one: every byte is compared, so two boards with one hash are two boards.
pub fn same_record(stored: &[u8], bytes: &[u8; RECORD_BYTES]) -> bool
    ensures { result ≡ same stored.now bytes.now }
{
    stored == bytes.as_slice()
}

// The record in the place i: a hundred bytes.
#[tactic(auto, unfolding(rules::specs::Records::capacity, rules::specs::Records::stored))]
fn stored(history: &[u8], i: usize) -> &[u8]
    requires { i < capacity history.now }
    ensures { result.now ≡ stored history.now i }
{
    let at = RECORD_BYTES * i;
    &history[at..at + RECORD_BYTES]
}

// One of the first `count` records is this one. Each comparison is lent one record alone.
pub fn is_recorded(history: &[u8], count: usize, bytes: &[u8; RECORD_BYTES]) -> bool
    requires { Looking history.now count bytes.now }
    ensures { result ≡ among history.now count bytes.now }
{
    for i in 0..count {
        if same_record(stored(history, i), bytes) {
            return true;
        }
    }
    false
}

// No room is left for this record, and no equal one stands there.
pub fn is_full(history: &[u8], count: usize, bytes: &[u8; RECORD_BYTES]) -> bool
    requires { Looking history.now count bytes.now }
    ensures { result ≡ not (among history.now count bytes.now) && leb (capacity history.now) count }
{
    !is_recorded(history, count, bytes) && capacity_of(history) <= count
}

// Writes the record over the part that is lent.
pub fn write_record(part: &mut [u8], bytes: &[u8; RECORD_BYTES])
    requires { length part.old ≡ record_bytes }
    ensures { part.new ≡ bytes.now }
{
    part.copy_from_slice(bytes);
}

// The record becomes the next one: the writer is lent the next free hundred bytes alone.
pub fn add_record(history: &mut [u8], count: usize, bytes: &[u8; RECORD_BYTES])
    requires { Adding history.old count bytes.now }
    ensures { history.new ≡ take (record_bytes * count) history.old ++ (bytes.now ++ drop (record_bytes * count + record_bytes) history.old) }
{
    let at = RECORD_BYTES * count;
    let end = at + RECORD_BYTES;
    write_record(&mut history[at..end], bytes);
}

// The present board becomes the next record, unless it is among the records already. Answers how many there are then.
pub fn note_board(history: &mut [u8], count: usize, bytes: &[u8; RECORD_BYTES]) -> usize
    requires { Noting history.old count bytes.now }
    ensures { (cols : List ℕ) → bytes.now ≡ record_of cols → Noted history.old count cols result history.new }
{
    if is_recorded(history, count, bytes) {
        return count;
    }
    add_record(history, count, bytes);
    count + 1
}
