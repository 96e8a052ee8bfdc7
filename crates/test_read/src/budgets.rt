//! Reading and printing in a budget that refuses: nothing is read, what was there stays, and all bytes come back.
use fc_budget::Budget;
use fc_vec::TryVec;
use fc_vec::format::try_format;
use fc_vec::read::{TryRead, try_read_up_to};
use std::alloc::Global;
use std::io::{self, ErrorKind, Read};

const TEN: &[u8] = b"0123456789";

fn is_out_of_memory(answer: io::Result<usize>) -> bool {
    match answer {
        Ok(_read) => false,
        Err(error) => error.kind() == ErrorKind::OutOfMemory,
    }
}

// One of the calls that read so many bytes after those of the buffer, and how many bytes the source has left.
fn read(buf: &mut TryVec<u8, &Budget<Global>>, limit: u64, way: u64) -> (io::Result<usize>, usize) {
    let mut src = TEN;
    if way == 0 {
        let answer = try_read_up_to(&mut src, limit, buf);
        return (answer, src.len());
    }
    let mut bounded = src.take(limit);
    let answer = bounded.try_read_to_end(buf);
    (answer, bounded.into_inner().len())
}

// Ten bytes, of which none was read where there is no room for ten more.
fn is_refused(budget: &Budget<Global>, way: u64) -> bool {
    let Ok(mut buf) = TryVec::try_from_slice(budget, TEN) else {
        return false;
    };
    let (answer, left) = read(&mut buf, 10, way);
    is_out_of_memory(answer) && left == 10 && buf.as_slice() == TEN && budget.used() == 10
}

#[test]
fn without_room_nothing_is_read(rt: HostRuntime) {
    for way in 0..2u64 {
        let budget = Budget::new(rt.alloc(), 29);
        assert!(rt; is_refused(&budget, way));
        assert!(rt; budget.used() == 0);
    }
}

// Whether all ten bytes were read into a vector of their own, and how many bytes were out then.
fn read_whole(budget: &Budget<Global>) -> (bool, usize) {
    let src = TEN;
    let answer = src.take(10).read_into_try_vec(budget);
    match answer {
        Ok(made) => (made.as_slice() == TEN, budget.used()),
        Err(_refused) => (false, budget.used()),
    }
}

// A text of ten bytes, for which room is taken first, or none.
fn printed(budget: &Budget<Global>, room: usize) -> (bool, usize) {
    match try_format(budget, room, &1234567890u64) {
        Ok(text) => (text.as_str() == "1234567890", budget.used()),
        Err(_refused) => (false, budget.used()),
    }
}

#[test]
fn what_is_made_fits_or_is_refused(rt: HostRuntime) {
    let short = Budget::new(rt.alloc(), 9);
    let exact = Budget::new(rt.alloc(), 10);
    let seen = [
        read_whole(&short),
        printed(&short, 10),
        printed(&short, 0),
        read_whole(&exact),
        printed(&exact, 10),
    ];
    assert_eq!(rt;
        seen,
        [(false, 0), (false, 0), (false, 0), (true, 10), (true, 10)]
    );
    assert_eq!(rt; (short.used(), exact.used()), (0, 0));
}
