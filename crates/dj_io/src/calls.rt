// Calls that fail, by their numbers.
ghost use Rattle.std.specs.Prelude.{◌≡◌, ◌+◌, ◌==◌};

// Whether a number, counted from 1, is that of the call after these.
pub(crate) fn is_next(number: u64, calls: u64) -> bool
    ensures { result ≡ (number == calls + 1) }
{
    number != 0 && number - 1 == calls
}
