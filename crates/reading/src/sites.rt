// Reading a site record from any bytes.
ghost use Rattle.std.specs.Prelude.{◌≡◌};
ghost use Rattle.site.specs.Record.{site_of, read_site};

use refusals::Refusal;
use site::{Flows, Site, Temperatures};

// The fields, or the first of the refusals 1 to 9. Beside read_minute: one function for both would take a trait with the form and its laws.
pub fn read_site(bytes: &[u8]) -> Result<Site, Refusal>
    ensures { result ≡ read_site bytes.now }
{
    records::head(bytes, Site::BYTES, Site::VERSION)?;
    let site = site_in(bytes);
    site.verdict()?;
    Ok(site)
}

// The fields of a record's bytes, not yet examined.
pub fn site_in(b: &[u8]) -> Site
    ensures { result ≡ site_of b.now }
{
    let temperature = Temperatures {
        lowest: numbers::at(b, 16),
        highest: numbers::at(b, 18),
    };
    let flow = Flows {
        lowest: numbers::at(b, 20),
        highest: numbers::at(b, 24),
    };
    Site {
        method: numbers::at(b, 3),
        year: numbers::at(b, 4),
        gwp: numbers::at(b, 6),
        height: numbers::at(b, 8),
        diameter: numbers::at(b, 12),
        temperature,
        flow,
        days: numbers::at(b, 28),
    }
}
