//! Ranges of `String` keys by borrowed texts.
use fc_base::TryReserveError;
use fc_map::map::BTreeMap;
use std::alloc::Global;
use std::ops::Bound;
use std::test::Fail;

type Words = BTreeMap<String, u64>;

fn put(alloc: Global, words: &mut Words, word: &str, number: u64) -> Result<(), TryReserveError> {
    let key = String::from_str(alloc, word)?;
    words.try_insert(key, number)?;
    Ok(())
}

fn put_words(alloc: Global, words: &mut Words) -> Result<(), TryReserveError> {
    put(alloc, words, "banana", 1)?;
    put(alloc, words, "apply", 2)?;
    put(alloc, words, "al", 3)?;
    put(alloc, words, "application", 4)?;
    put(alloc, words, "apricot", 5)?;
    put(alloc, words, "apple", 6)
}

fn is_number(found: Option<(&String, &u64)>, number: u64) -> bool {
    match found {
        Some((_word, value)) => *value == number,
        None => false,
    }
}

// The words that begin with `app` lie between that and the next text of its length.
fn gives_those_with_the_prefix(words: &Words) -> bool {
    let mut walk = words.range((Bound::Included("app"), Bound::Excluded("apq")));
    is_number(walk.next(), 6)
        && is_number(walk.next_back(), 2)
        && is_number(walk.next(), 4)
        && walk.next().is_none()
        && walk.next_back().is_none()
}

fn gives_none_where_the_end_is_before_the_start(words: &Words) -> bool {
    let mut walk = words.range((Bound::Included("b"), Bound::Included("app")));
    walk.next().is_none() && walk.next_back().is_none()
}

fn has(words: &Words, word: &str, number: u64) -> bool {
    match words.get(word) {
        Some(value) => *value == number,
        None => false,
    }
}

fn writes_those_with_the_prefix(words: &mut Words) -> bool {
    words
        .range_mut((Bound::Included("app"), Bound::Excluded("apq")))
        .for_each(|_word, value| *value = value.wrapping_add(10));
    has(words, "apple", 16)
        && has(words, "apply", 12)
        && has(words, "al", 3)
        && has(words, "apricot", 5)
}

// Whether each of the three is right.
fn walk_all(alloc: Global, words: &mut Words) -> Result<(bool, bool, bool), TryReserveError> {
    put_words(alloc, words)?;
    let gives_those = gives_those_with_the_prefix(words);
    let gives_none = gives_none_where_the_end_is_before_the_start(words);
    Ok((gives_those, gives_none, writes_those_with_the_prefix(words)))
}

fn words_are_walked(alloc: Global) -> Result<(bool, bool, bool), TryReserveError> {
    let mut words = Words::new(alloc);
    walk_all(alloc, &mut words)
}

#[test]
fn a_prefix_is_walked_by_two_texts(rt: HostRuntime) -> Result<(), Fail> {
    let (gives_those, gives_none, writes_those) = words_are_walked(rt.alloc())?;
    assert!(rt; gives_those);
    assert!(rt; gives_none);
    assert!(rt; writes_those);
    Ok(())
}
