// Ranges from a first and a count.
ghost use Rattle.types.specs.Ranges.{Made};

use crate::range::Range;

impl Range {
    // So many from the first on, if they are any and the total has them all. Their end is the true sum: it does not stop at
    // the largest 32-bit number, and does not wrap there.
    pub fn new(first: u32, count: u32, total: u32) -> Option<Range>
        ensures { Made first count total result }
    {
        let end = u64::from(first) + u64::from(count);
        if count == 0 || end > u64::from(total) {
            return None;
        }
        Some(Range {
            first,
            end: end as u32,
            total,
        })
    }
}
