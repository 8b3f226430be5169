//! What follows of limits.
ghost use Rattle.log_limits.specs.Limiting.{CountsAll, WritesFew};

/// However many lines ask before the next minute begins, no more are written than may be.
pub fn no_more_are_written_in_a_minute()
    ensures { WritesFew }
{}

/// Each line is written, or told in a count, or counted and still to be told, while no count is at the greatest u64.
pub fn each_line_is_written_or_counted()
    ensures { CountsAll }
{}
