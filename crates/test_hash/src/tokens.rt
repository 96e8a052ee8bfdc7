//! Keys and values that count their drops.
use fc_base::TryReserveError;
use fc_hash::TryHashMap;
use std::test::Fail;
use test_values::{Tally, Token, is_ample};

// Each insertion is done or refused, and drops what it did not keep. The sweep refuses the requests in turn.
#[test]
fn each_key_and_value_is_dropped_once(rt: HostRuntime) {
    let keys = Tally::new();
    let values = Tally::new();
    let mut map = TryHashMap::default(rt.alloc());
    for number in 0..20u64 {
        let kept = map.len() as u64;
        let _refused = map
            .insert(Token::new(number, &keys), Token::new(number, &values))
            .is_err();
        assert!(rt; keys.dropped.get().wrapping_add(map.len() as u64) == number + 1);
        assert!(rt; values.dropped.get() == keys.dropped.get() && kept <= map.len() as u64);
    }
    let kept = map.len() as u64;
    let gone = map.remove(&Token::new(3, &keys)).is_some();
    drop(map);
    assert!(rt; keys.dropped.get() == 21 && values.dropped.get() == 20 && (gone || kept < 20));
}

// The pair of 1, each with its drops counted; whether there was none.
fn insert_one<'a>(
    map: &mut TryHashMap<Token<'a>, Token<'a>>,
    keys: &'a Tally,
    values: &'a Tally,
) -> Result<bool, TryReserveError> {
    Ok(
        map.insert(Token::new(1, keys), Token::new(1, values))?
            .is_none(),
    )
}

// The sweep refuses the request, and counts the refused call: the map is then empty, and the same call once more puts the pair in.
#[test]
fn a_refused_first_insertion_leaves_an_empty_map(rt: HostRuntime) -> Result<(), Fail> {
    let (keys, values) = (Tally::new(), Tally::new());
    let mut map = TryHashMap::default(rt.alloc());
    let mut made = 1u64;
    let mut answer = insert_one(&mut map, &keys, &values);
    if answer.is_err() {
        println!(rt; "refused")?;
        assert!(rt; matches!(answer, Err(TryReserveError::AllocError)) && map.len() == 0);
        assert!(rt; keys.dropped.get() == 1 && values.dropped.get() == 1);
        answer = insert_one(&mut map, &keys, &values);
        made = 2;
        assert!(rt; answer.is_ok() == is_ample(rt.alloc()));
    }
    let is_put = matches!(answer, Ok(true)) && map.len() == 1;
    assert!(rt; is_put || answer.is_err() && map.len() == 0);
    drop(map);
    assert!(rt; keys.dropped.get() == made && values.dropped.get() == made);
    Ok(())
}

#[test]
fn a_key_that_was_there_stays(rt: HostRuntime) -> Result<(), Fail> {
    let keys = Tally::new();
    let values = Tally::new();
    let mut map = TryHashMap::default(rt.alloc());
    map.insert(Token::new(1, &keys), Token::new(1, &values))?;
    let old = map.insert(Token::new(1, &keys), Token::new(2, &values))?;
    assert!(rt; keys.dropped.get() == 1 && values.dropped.get() == 0 && old.is_some());
    drop(old);
    drop(map);
    assert!(rt; keys.dropped.get() == 2 && values.dropped.get() == 2);
    Ok(())
}
