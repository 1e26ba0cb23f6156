// Whether the records of a book can hold what a well-formed file has: so many tenants and scopes, and its leases, holds and releases.
ghost use Rattle.std.specs.Prelude.{◌≡◌};
ghost use Rattle.state_file.specs.Place.{Formed, file_at};
ghost use Rattle.state_file.specs.Records.{counts_fit, fits_b};

use crate::Places;

// Whether the records can hold the file.
pub fn fits(s: &[u8], places: Places) -> bool
    requires { Formed s.now places }
    ensures { result ≡ fits_b (file_at s.now places) }
{
    counts_fit(s[9], s[places.scopes])
        && lease_file::fits(s, places.leases, places.holds)
        && release_file::fits(s, places.releases)
}

// Whether they can hold so many tenants and scopes.
pub fn counts_fit(tenants: u8, scopes: u8) -> bool
    ensures { result ≡ counts_fit tenants scopes }
{
    tenants <= 8 && scopes <= 4
}
