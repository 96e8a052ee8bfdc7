//! The lines of walks and writes under refused memory.
use crate::serving::{in_pieces, served, wide};
use fc_base::TryReserveError;
use fc_command::command::ServeError;
use std::alloc::{AllocError, Global};
use test_values::is_ample;

const FOUR_LINES: &[u8] = b"insert a 1 2\nwalk a * * ff\nwrite a * * f=3 f=4\nwalk a * * b";

// What is written for the four lines where any of them but the third is refused.
const REPLIES: [&[u8]; 8] = [
    b"none\nlist 1:2 -\n1\nlist 1:3\n",
    b"none\nrefused alloc\n1\nlist 1:3\n",
    b"none\nlist 1:2 -\n1\nrefused alloc\n",
    b"none\nrefused alloc\n1\nrefused alloc\n",
    b"refused alloc 1 2\nlist - -\n0\nlist -\n",
    b"refused alloc 1 2\nrefused alloc\n0\nlist -\n",
    b"refused alloc 1 2\nlist - -\n0\nrefused alloc\n",
    b"refused alloc 1 2\nrefused alloc\n0\nrefused alloc\n",
];

fn is_one_of_the_replies(written: &[u8]) -> bool {
    for i in 0..8usize {
        if REPLIES[i] == written {
            return true;
        }
    }
    false
}

// Whole lines that some replies begin with.
fn begins_the_replies(written: &[u8]) -> bool {
    for i in 0..8usize {
        if REPLIES[i].starts_with(written) {
            return written.is_empty() || written.ends_with(b"\n");
        }
    }
    false
}

// Once more where it is refused.
fn room_for_replies(alloc: Global) -> Result<Vec<u8>, AllocError> {
    match Vec::with_capacity(alloc, 100) {
        Ok(room) => Ok(room),
        Err(_refused) => Vec::with_capacity(alloc, 100),
    }
}

// Memory is refused while a line becomes a command, while a command runs, or while its reply becomes text: whole lines are
// written, and the world keeps its pair.
#[test]
fn a_refused_walk_changes_nothing(rt: HostRuntime) {
    let Ok(room) = room_for_replies(rt.alloc()) else {
        assert!(rt; !is_ample(rt.alloc()));
        return;
    };
    let mut out = wide(room);
    let mut src = in_pieces(FOUR_LINES, usize::MAX);
    let is_right = match served(rt.alloc(), &mut src, &mut out) {
        Ok(_) => is_one_of_the_replies(&out.kept),
        Err(ServeError::Memory(TryReserveError::AllocError)) => begins_the_replies(&out.kept),
        Err(_) => false,
    };
    assert!(rt; is_right);
}
