//! Calls on maps whose keys and values own memory. No clause says that what is let go is given back; `tools/sweep` sees each block that is left after a test, with
//! ample memory, and of those that it lists also with each request refused in turn.
//!
//! Of ascending numbers 15 fill a leaf, 16 to 150 stand on two levels, and more on three.
mod ends;
mod made;
mod taken;

use fc_base::TryReserveError;
use fc_map::map::BTreeMap;
use std::alloc::Global;
use test_values::Owned;

pub(crate) type Owners = BTreeMap<Owned, Owned>;

// How many pairs stand on three levels, and how many on two.
pub(crate) const MANY: u64 = 300;

pub(crate) const FEW: u64 = 20;

pub(crate) fn pair(alloc: Global, number: u64) -> Result<(Owned, Owned), TryReserveError> {
    let key = Owned::try_new(alloc, number)?;
    let value = Owned::try_new(alloc, number)?;
    Ok((key, value))
}

// Puts in the numbers from `first` on below `end`, each so many on, with themselves.
pub(crate) fn put_owners(
    alloc: Global,
    map: &mut Owners,
    first: u64,
    end: u64,
    step: u64,
) -> Result<(), TryReserveError> {
    for number in first..end {
        if step > 0 && (number - first) % step == 0 {
            let (key, value) = pair(alloc, number)?;
            map.try_insert(key, value)?;
        }
    }
    Ok(())
}

pub(crate) fn owners(
    alloc: Global,
    first: u64,
    end: u64,
    step: u64,
) -> Result<Owners, TryReserveError> {
    let mut map = BTreeMap::new(alloc);
    put_owners(alloc, &mut map, first, end, step)?;
    Ok(map)
}

// Whether the answer is right, or a request was refused: what is then left is for the sweep to see.
pub(crate) fn is_right(answer: Result<bool, TryReserveError>) -> bool {
    match answer {
        Ok(is_right) => is_right,
        Err(e) => matches!(e, TryReserveError::AllocError),
    }
}

pub(crate) fn is_pair(taken: Option<(Owned, Owned)>, number: u64) -> bool {
    match taken {
        Some((key, value)) => key.number == number && value.number == number,
        None => false,
    }
}

pub(crate) fn is_number(taken: Option<Owned>, number: u64) -> bool {
    match taken {
        Some(item) => item.number == number,
        None => false,
    }
}
