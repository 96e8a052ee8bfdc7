#![tactic(auto)]

use fallible_collections::btree::BTreeMap;
use fc_budget::Budget;
use std::io;

fn main(rt: HostRuntime) -> io::Result<()> {
    let budget = Budget::new(rt.alloc(), 4096);
    let mut map = BTreeMap::new(&budget);
    for n in 1..=115u64 {
        if let Err((key, _value, _refused)) = map.try_insert(n, n) {
            println!(rt; "no memory for {key}")?; // the map is as it was
        }
    }
    println!(rt; "{} pairs", map.len())
}
