//! Counts words, one a line, and prints each with its count, in order.
#![tactic(auto)]

ghost use Rattle.std.specs.Prelude.{◌≡◌, ◌+◌, min, unwrap_or, IfErr, OnErr, OnOk};
ghost use Rattle.std.specs.String.{string_cmp};
ghost use Rattle.fallible_collections.specs.Words.{entries, put, value_at};

use fallible_collections::btree::BTreeMap;
use std::io;

fn main(rt: HostRuntime) -> io::Result<()> {
    let mut counts = BTreeMap::new(rt.alloc());
    for line in rt.lines(rt.alloc()) {
        if let Err(word) = count(&mut counts, line?) {
            println!(rt; "no memory for {word}")?; // the map is as it was
        }
    }
    for (word, count) in &counts {
        println!(rt; "{word} {count}")?;
    }
    Ok(())
}

// Counts a word once more. Refused, it comes back.
fn count(counts: &mut BTreeMap<String, u64>, word: String) -> Result<(), String>
    ensures counted { OnOk result (entries counts.new ≡ put string_cmp (entries counts.old) word (min (unwrap_or (value_at string_cmp (entries counts.old) word) 0 + 1) u64.MAX)) }
    ensures unchanged { OnErr result (counts.new ≡ counts.old) }
    ensures back { IfErr result (λ refused. refused ≡ word) }
{
    let before = counts.get(&word).copied().unwrap_or(0);
    match counts.try_insert(word, before.saturating_add(1)) {
        Ok(_) => Ok(()),
        Err((word, _one, _refused)) => Err(word),
    }
}
