//! A job over the table of rows by an id and two second keys.
use super::{mark, mixed};
use fc_index::{Keyed, Table};
use std::alloc::Global;
use std::ops::Bound;

type Rows = Table<u64, u64, u64, u64>;

// How many rows a walk gives.
const WALK: u64 = 10;

fn checked(row: Option<Keyed<u64, u64, u64>>) -> Option<u64> {
    let row = row?;
    Some(row.first ^ row.second ^ row.value)
}

// Puts a row at each id, with its second keys, of which the second is its value too; `None` where memory was refused.
fn insert_all(
    table: &mut Rows,
    ids: &[u64],
    firsts: &[u64],
    seconds: &[u64],
    checksum: u64,
) -> Option<u64> {
    let mut seen = checksum;
    for ((id, first), second) in ids.iter().zip(firsts).zip(seconds) {
        match table.try_insert(*id, *first, *second, *second) {
            Ok(old) => seen = mixed(seen, checked(old)),
            Err(_) => return None,
        }
    }
    Some(seen)
}

fn get_all(table: &Rows, ids: &[u64], checksum: u64) -> u64 {
    let mut seen = checksum;
    for id in ids {
        seen = mixed(seen, table.get(*id).map(|row| row.value));
    }
    seen
}

// The first ten rows from a first key on go into the checksum.
fn walk_from(table: &Rows, key: u64, checksum: u64) -> u64 {
    let mut seen = checksum;
    let mut walk = table.by_first((Bound::Included(key), Bound::Unbounded));
    for _ in 0..WALK {
        let Some((first, id)) = walk.next() else {
            return seen;
        };
        seen = mixed(seen, Some(first ^ id));
    }
    seen
}

fn walk_from_all(table: &Rows, keys: &[u64], checksum: u64) -> u64 {
    let mut seen = checksum;
    for key in keys {
        seen = walk_from(table, *key, seen);
    }
    seen
}

fn remove_all(table: &mut Rows, ids: &[u64], checksum: u64) -> u64 {
    let mut seen = checksum;
    for id in ids {
        seen = mixed(seen, checked(table.remove(*id)));
    }
    seen
}

/// Puts a row at each of `ids` into a new table, with `firsts` and `seconds`, looks `sought` up, walks over ten rows from each of `keys` on, puts
/// another row at each of `sought`, with `seconds` and `firsts`, and takes `removed` out. Each of the five is a phase. The checksum of all answers goes
/// to `checksum`. False where memory was refused.
#[unsafe(no_mangle)]
pub extern "C" fn bench_tables_run(
    alloc: Global,
    ids: &[u64],
    firsts: &[u64],
    seconds: &[u64],
    sought: &[u64],
    keys: &[u64],
    removed: &[u64],
    checksum: &mut u64,
) -> bool {
    let mut table = Table::new(alloc);
    let started = mark(alloc);
    let Some(filled) = insert_all(&mut table, ids, firsts, seconds, 0) else {
        return false;
    };
    let inserted = mark(alloc);
    let found = get_all(&table, sought, filled);
    let searched = mark(alloc);
    let walked = walk_from_all(&table, keys, found);
    let seen = mark(alloc);
    let Some(exchanged) = insert_all(&mut table, sought, seconds, firsts, walked) else {
        return false;
    };
    let replaced = mark(alloc);
    *checksum = remove_all(&mut table, removed, exchanged);
    let emptied = mark(alloc);
    started && inserted && searched && seen && replaced && emptied
}
