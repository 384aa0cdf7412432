// The values of all options in one row, for tables with an entry for each value of each option.
ghost use Rattle.std.specs.Prelude.{◌≡◌, ◌<◌, MatchOption};
ghost use Rattle.value_set.specs.Limits.{most_options, most_values};
ghost use Rattle.value_set.specs.Places.{Beyond, place};

use crate::block::OPTIONS;
use crate::set::VALUES;

/// How many values all options have together.
pub const PLACES: usize = OPTIONS * VALUES as usize;

/// The place of a value of an option, below `PLACES`. There is none if the option or the value is beyond the limits.
pub fn place_of(option: usize, value: u8) -> Option<usize>
    ensures { MatchOption result (Beyond option value)
        (λ p. (option < most_options) × (value < most_values) × (p ≡ place option value)) }
{
    if option < OPTIONS && u32::from(value) < VALUES {
        Some(option * VALUES as usize + usize::from(value))
    } else {
        None
    }
}
