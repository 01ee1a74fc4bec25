// Writing a site record into any buffer.
ghost use Rattle.std.specs.Prelude.{◌≡◌, length, take, drop};
ghost use Rattle.exact.specs.scaffold.Filled.{filled};
ghost use Rattle.records.specs.House.{written};
ghost use Rattle.site.specs.Record.{site_layout, site_form, site_bytes, write_site};

use refusals::{Refusal, Verdict};
use site::Site;

// Puts the record into the buffer, or answers 22 or the first of the refusals 3 to 9 and leaves the buffer as it was.
pub fn write_site(site: Site, out: &mut [u8]) -> Result<(), Refusal>
    ensures { (result ≡ write_site site out.old) × (out.new ≡ written out.old (site_bytes site) result) }
{
    Ok(())
        .also(out.len() != Site::BYTES, Refusal::Buffer)
        .then(site.verdict())?;
    fill(site, out);
    Ok(())
}

fn fill(site: Site, out: &mut [u8])
    requires { length out.old ≡ site_form.size }
    ensures { out.new ≡ site_bytes site }
{
    records::put_head(out, (Site::BYTES - 2) as u16, Site::VERSION);
    numbers::put(out, 3, site.method);
    numbers::put(out, 4, site.year);
    numbers::put(out, 6, site.gwp);
    numbers::put(out, 8, site.height);
    numbers::put(out, 12, site.diameter);
    fill_limits(site, out);
    numbers::put(out, 28, site.days);
}

fn fill_limits(site: Site, out: &mut [u8])
    ensures { out.new ≡ filled (take 4 (drop 5 site_layout)) site out.old }
{
    let temperature = site.temperature;
    let flow = site.flow;
    numbers::put(out, 16, temperature.lowest);
    numbers::put(out, 18, temperature.highest);
    numbers::put(out, 20, flow.lowest);
    numbers::put(out, 24, flow.highest);
}
