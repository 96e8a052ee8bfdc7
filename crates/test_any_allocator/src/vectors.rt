//! Vectors in a budget.
use crate::least::{Call, Fate, done, least, refused};
use crate::sizes::AMPLE;
use fc_base::{TryClone, TryReserveError};
use fc_budget::Budget;
use fc_vec::TryVec;
use std::alloc::Global;
use std::test::Fail;

type List<'a> = TryVec<u64, &'a Budget<Global>>;

// Pushes so many numbers from the first on, one after another.
fn push_all(list: &mut List<'_>, first: u64, count: u64) -> Result<(), TryReserveError> {
    for place in 0..count {
        list.push(first.wrapping_add(place))?;
    }
    Ok(())
}

// Whether these are so many numbers from the first on.
fn counts_up(numbers: &[u64], first: u64, count: u64) -> bool {
    let mut place = 0u64;
    for number in numbers {
        if *number != first.wrapping_add(place) {
            return false;
        }
        place = place.wrapping_add(1);
    }
    place == count
}

// What is done with a list.
#[derive(Clone, Copy)]
enum Way {
    Push,
    Insert,
    Append,
    Extend,
    Copy,
}

// A list of the numbers below the count, and one of the next three.
#[derive(Drop)]
struct Longer<'a> {
    list: List<'a>,
    next: List<'a>,
    count: u64,
    way: Way,
}

impl Longer<'_> {
    // Makes the call, and answers how many numbers more the list then has.
    fn call(&mut self) -> Result<u64, TryReserveError> {
        match self.way {
            Way::Push => self.list.push(self.count)?,
            Way::Insert => self.list.insert(self.list.len(), self.count)?,
            Way::Append => self.list.append(&mut self.next)?,
            Way::Extend => self.list.extend_from_slice(self.next.as_slice())?,
            Way::Copy => {
                let copy = self.list.try_clone()?;
                return Ok(if copy == self.list { 0 } else { 1 });
            }
        }
        Ok(match self.way {
            Way::Append | Way::Extend => 3,
            _ => 1,
        })
    }
}

impl Call for Longer<'_> {
    fn fate(&mut self) -> Fate {
        match self.call() {
            Ok(more) => done(counts_up(self.list.as_slice(), 0, self.count.wrapping_add(more))),
            Err(error) => refused(
                error,
                counts_up(self.list.as_slice(), 0, self.count)
                    && counts_up(self.next.as_slice(), self.count, 3),
            ),
        }
    }
}

fn least_of_filled(
    budget: &Budget<Global>,
    longer: &mut Longer<'_>,
) -> Result<usize, TryReserveError> {
    let count = longer.count;
    push_all(&mut longer.list, 0, count)?;
    push_all(&mut longer.next, count, 3)?;
    least(budget, longer)
}

fn least_of(budget: &Budget<Global>, count: u64, way: Way) -> Result<usize, TryReserveError> {
    let mut longer = Longer {
        list: TryVec::new(budget),
        next: TryVec::new(budget),
        count,
        way,
    };
    least_of_filled(budget, &mut longer)
}

// Of lists of none, four, five and eight numbers.
fn least_of_each(budget: &Budget<Global>, way: Way) -> Result<[usize; 4], TryReserveError> {
    let mut seen = [AMPLE; 4];
    for i in 0..4 {
        seen[i] = least_of(budget, [0, 4, 5, 8][i], way)?;
    }
    Ok(seen)
}

// A list has room for four numbers of eight bytes, then for eight and sixteen: the old room is given back once the new one is there. A copy has just its room.
#[test]
fn a_refused_call_leaves_the_vector(rt: HostRuntime) -> Result<(), Fail> {
    let budget = Budget::new(rt.alloc(), AMPLE);
    assert!(rt; least_of_each(&budget, Way::Push)? == [32, 64, 0, 128]);
    assert!(rt; least_of_each(&budget, Way::Insert)? == [32, 64, 0, 128]);
    assert!(rt; least_of_each(&budget, Way::Append)? == [32, 64, 0, 128]);
    assert!(rt; least_of_each(&budget, Way::Extend)? == [32, 64, 0, 128]);
    assert!(rt; least_of_each(&budget, Way::Copy)? == [0, 32, 40, 64]);
    assert!(rt; budget.used() == 0);
    Ok(())
}

// Whether a list with so much room is made, and a slice of so many is copied.
fn are_made(budget: &Budget<Global>, numbers: &[u64]) -> (bool, bool) {
    let is_roomy = List::with_capacity(budget, numbers.len()).is_ok();
    (is_roomy, List::try_from_slice(budget, numbers).is_ok())
}

#[test]
fn a_vector_is_made_where_its_bytes_fit(rt: HostRuntime) {
    let numbers = [1, 2, 3, 4, 5, 6, 7, 8, 9, 10];
    let narrow = Budget::new(rt.alloc(), 79);
    let wide = Budget::new(rt.alloc(), 80);
    assert!(rt; are_made(&narrow, &numbers) == (false, false));
    assert!(rt; are_made(&wide, &numbers) == (true, true));
    assert!(rt; (narrow.used(), wide.used()) == (0, 0));
}
