//! The least of several places.
ghost use Rattle.std.specs.Prelude.{◌≡◌, fold};
ghost use Rattle.dj_faults.specs.LeastPlace.{first_place};

/// The lesser of two places, or the only one that is there: `first_place`.
pub fn earlier(one: Option<u32>, other: Option<u32>) -> Option<u32>
    ensures { result ≡ first_place one other }
{
    match (one, other) {
        (Some(one), Some(other)) => Some(one.min(other)),
        (Some(one), None) => Some(one),
        (None, other) => other,
    }
}

// The least of the places that are there.
pub fn least_of(own: Option<u32>, places: &[Option<u32>]) -> Option<u32>
    ensures { result ≡ fold first_place own places.now }
{
    let mut least = own;
    for place in places {
        least = earlier(least, *place);
    }
    least
}
