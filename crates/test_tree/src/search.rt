// Searches in a full leaf, by a key that counts how often it is compared.
ghost use Rattle.std.specs.Prelude.{◌≡◌, ℕ, ◌+◌, ◌*◌, ◌<◌, ◌≤◌, length, IfOk};
ghost use Rattle.std.specs.Ordering.{nat_cmp, on};
ghost use Rattle.fc_base.specs.Ascending.{IsAscending};
ghost use Rattle.fc_tree_node.specs.Node.{pairs_of};
ghost use Rattle.fc_tree_node.specs.Node.{IsTree};
ghost use Rattle.fc_tree_node.specs.Place.{IsPlace};
ghost use Rattle.fc_tree_search.specs.Written.{written};

use fc_base::{Asked, Count, TryReserveError};
use fc_tree_node::node::{CAPACITY, Node};
use fc_tree_node::path::Path;
use fc_tree_search::lend::{pair_at, value_mut};
use fc_tree_search::search::{get, search};
use std::alloc::Global;
use std::cell::Cell;
use std::process::Abort;
use std::test::Fail;
use test_values::CountingKey;

// The last key of the full leaf.
const LAST: u64 = 2 * CAPACITY as u64;

// A full leaf of the keys 2, 4 and so on, each with its half as the value.
fn full_leaf<'a>(
    alloc: Global,
    comparisons: &'a Cell<u64>,
) -> Result<Node<CountingKey<'a>, u64>, TryReserveError>
    ensures { IfOk result (λ b. IsTree b × IsAscending (on (λ k. k.number) nat_cmp) (pairs_of b)) }
{
    let mut leaf = Node::try_leaf(alloc, &mut Asked::new())?;
    let mut count = Count::new();
    for half in 1..LAST / 2 + 1 {
        let key = CountingKey {
            number: 2 * half,
            comparisons,
        };
        let end = leaf.len();
        leaf.insert_leaf(end, (key, half), &mut count);
    }
    Ok(leaf)
}

// How many keys a search for the number passes: those below it, and the one that it stops at.
fn passed(number: u64) -> u64 {
    match number {
        1 | 2 => 1,
        3 | 4 => 2,
        16 => 8,
        17 => 9,
        _ => CAPACITY as u64,
    }
}

// Whether it is half the number where the number is a key of the leaf, and else absent.
fn is_half(half: Option<u64>, number: u64) -> bool {
    match half {
        Some(half) => number % 2 == 0 && number <= LAST && half == number / 2,
        None => number % 2 != 0 || number > LAST,
    }
}

fn is_place(path: &[u8], place: usize) -> bool {
    path.len() == 1 && path[0] as usize == place
}

#[test]
fn compares_each_key_that_it_passes_once(rt: HostRuntime) -> Result<(), Fail> {
    let comparisons = Cell::new(0);
    let leaf = full_leaf(rt.alloc(), &comparisons)?;
    for number in [1, 2, 3, 4, 16, 17, LAST - 1, LAST, LAST + 1] {
        let key = CountingKey {
            number,
            comparisons: &comparisons,
        };
        let mut count = Count::new();
        comparisons.set(0);
        let half = get(&leaf, &key, &mut count).map(|pair| pair.1);
        assert!(rt; comparisons.get() == passed(number) && is_half(half, number));
        comparisons.set(0);
        let mut path = Path::new();
        let is_there = search(&leaf, &key, &mut path, &mut count).is_ok();
        assert!(rt; comparisons.get() == passed(number) && is_there == (number % 2 == 0));
        assert!(rt; number > 0 && is_place(path.as_slice(), (number as usize - 1) / 2));
    }
    Ok(())
}

// Writes 100 at the place, and reads it there and by the key.
fn write_at<'a>(
    rt: &impl Abort,
    root: &mut Node<CountingKey<'a>, u64>,
    path: &Path,
    key: &CountingKey<'a>,
)
    requires levels { IsTree root.old }
    requires order { IsAscending (on (λ k. k.number) nat_cmp) (pairs_of root.old) }
    requires place { IsPlace path.now root.old }
    ensures { root.new ≡ written root.old path.now 100 }
{
    *value_mut(root, path) = 100;
    assert!(rt; pair_at(root, path).1 == 100);
    let mut count = Count::new();
    assert!(rt; matches!(get(root, key, &mut count), Some((_, 100))));
}

#[test]
fn lends_the_value_at_a_found_place(rt: HostRuntime) -> Result<(), Fail> {
    let comparisons = Cell::new(0);
    let mut leaf = full_leaf(rt.alloc(), &comparisons)?;
    let key = CountingKey {
        number: 8,
        comparisons: &comparisons,
    };
    let mut count = Count::new();
    let mut path = Path::new();
    search(&leaf, &key, &mut path, &mut count)
        .ok()
        .ok_or("the key is there")?;
    assert!(rt; pair_at(&leaf, &path).1 == 4);
    write_at(&rt, &mut leaf, &path, &key);
    Ok(())
}
