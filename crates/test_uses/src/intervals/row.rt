//! A plain row that has the value of each point, and changes of a map and of the row beside it.
use fc_base::TryReserveError;
use fc_intervals::IntervalMap;

pub type Numbers = IntervalMap<u64, u64>;

/// The values of the points from 0 on, and 0 at a point that has none.
pub type Row = [u64; 24];

/// Writes the value at each point of a range of the row.
pub fn write(row: &mut Row, start: u64, end: u64, value: u64) {
    let mut point = 0u64;
    for held in row.iter_mut() {
        if start <= point && point < end {
            *held = value;
        }
        point = point.wrapping_add(1);
    }
}

/// Whether each point has the value of the row.
pub fn has_row(map: &Numbers, row: &Row) -> bool {
    let mut point = 0u64;
    for wanted in row {
        if map.get(point).copied().unwrap_or(0) != *wanted {
            return false;
        }
        point = point.wrapping_add(1);
    }
    true
}

/// The next of a row of numbers that look as if drawn at random.
pub fn next(state: u64) -> u64 {
    state
        .wrapping_mul(6364136223846793005)
        .wrapping_add(1442695040888963407)
}

/// Writes a range, or takes one out, that a number tells: one in eight is empty, or lies the wrong way round.
pub fn change(map: &mut Numbers, row: &mut Row, drawn: u64) -> Result<(), TryReserveError> {
    let start = (drawn >> 33) % 24;
    let end = start.wrapping_add((drawn >> 40) % 8);
    let (start, end) = if drawn >> 61 == 0 {
        (end, start)
    } else {
        (start, end)
    };
    if drawn >> 50 & 3 == 0 {
        map.try_cut(start..end)?;
        write(row, start, end, 0);
    } else {
        let value = (drawn >> 52 & 255).wrapping_add(1);
        map.try_put(start..end, value)?;
        write(row, start, end, value);
    }
    Ok(())
}
