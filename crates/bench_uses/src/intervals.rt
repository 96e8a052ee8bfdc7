//! A job over the map of stretches.
use super::{mark, mixed};
use fc_intervals::IntervalMap;
use std::alloc::Global;
use std::ops::Range;

type Stretches = IntervalMap<u64, u64>;

// So many points from a start on.
fn points_from(start: u64, length: u64) -> Range<u64> {
    start..start.wrapping_add(length)
}

// Gives so many points from each start on the start as their value; false where memory was refused.
fn put_all(map: &mut Stretches, starts: &[u64], length: u64) -> bool {
    for start in starts {
        if map.try_put(points_from(*start, length), *start).is_err() {
            return false;
        }
    }
    true
}

// Takes the value of so many points from each start on; false where memory was refused.
fn cut_all(map: &mut Stretches, starts: &[u64], length: u64) -> bool {
    for start in starts {
        if map.try_cut(points_from(*start, length)).is_err() {
            return false;
        }
    }
    true
}

fn get_all(map: &Stretches, points: &[u64], checksum: u64) -> u64 {
    let mut seen = checksum;
    for point in points {
        seen = mixed(seen, map.get(*point).copied());
    }
    seen
}

// Each stretch of a range goes into the checksum.
fn walk_over(map: &Stretches, range: Range<u64>, checksum: u64) -> u64 {
    let mut seen = checksum;
    for (start, stretch) in map.overlapping(range) {
        seen = mixed(seen, Some(*start ^ stretch.end ^ stretch.value));
    }
    seen
}

fn walk_over_all(map: &Stretches, starts: &[u64], length: u64, checksum: u64) -> u64 {
    let mut seen = checksum;
    for start in starts {
        seen = walk_over(map, points_from(*start, length), seen);
    }
    seen
}

/// Puts stretches of `short` points at `starts` into a new map, looks `points` up, walks over the stretches of ranges of `long` points at
/// `ranges`, puts such ranges at `puts`, and takes such ranges at `cuts` out. Each of the five is a phase. The checksum of all answers, and of
/// the stretches that are left, goes to `checksum`. False where memory was refused.
#[unsafe(no_mangle)]
pub extern "C" fn bench_intervals_run(
    alloc: Global,
    starts: &[u64],
    points: &[u64],
    ranges: &[u64],
    puts: &[u64],
    cuts: &[u64],
    short: u64,
    long: u64,
    checksum: &mut u64,
) -> bool {
    let mut map = IntervalMap::new(alloc);
    let started = mark(alloc);
    let filled = put_all(&mut map, starts, short) && mark(alloc);
    let found = get_all(&map, points, 0);
    let searched = mark(alloc);
    let walked = walk_over_all(&map, ranges, long, found);
    let seen = mark(alloc);
    let written = put_all(&mut map, puts, long) && mark(alloc);
    let taken = cut_all(&mut map, cuts, long) && mark(alloc);
    *checksum = walk_over(&map, 0..u64::MAX, walked);
    started && filled && searched && seen && written && taken
}
