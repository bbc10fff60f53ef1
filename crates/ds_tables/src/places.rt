//! The places for tables that one process has.
ghost use Rattle.std.specs.Prelude.{◌≡◌, length, map, position};
ghost use Rattle.ds_tables.specs.Places.{holds};
ghost use Rattle.ds_tables.specs.Inner.Places.{is_free, freed};

/// The tables that a process may have at one time.
pub(crate) const MOST: usize = 4;

/// For each place the region whose table stands there.
pub(crate) type Places = [Option<u32>; MOST];

/// The place of a region's table.
pub(crate) fn region_place(places: &[Option<u32>], region: u32) -> Option<usize>
    ensures { result ≡ position (holds region) places.now }
{
    places.iter().position(|place| holds(*place, region))
}

/// The first place where no table stands.
pub(crate) fn free_place(places: &[Option<u32>]) -> Option<usize>
    ensures { result ≡ position is_free places.now }
{
    places.iter().position(|place| is_free(*place))
}

/// The places once a region has none of them.
pub(crate) fn without(places: &[Option<u32>], region: u32) -> Places
    requires { length places.now ≡ 4 }
    ensures { result ≡ map (freed region) places.now }
{
    [
        freed(places[0], region),
        freed(places[1], region),
        freed(places[2], region),
        freed(places[3], region),
    ]
}

/// Whether a region's table stands at the place.
fn holds(place: Option<u32>, region: u32) -> bool
    ensures { result ≡ holds region place }
{
    match place {
        Some(held) => held == region,
        None => false,
    }
}

/// Whether no table stands at the place.
fn is_free(place: Option<u32>) -> bool
    ensures { result ≡ is_free place }
{
    match place {
        Some(_) => false,
        None => true,
    }
}

/// The place once it isn't the region's.
fn freed(place: Option<u32>, region: u32) -> Option<u32>
    ensures { result ≡ freed region place }
{
    if holds(place, region) { None } else { place }
}
