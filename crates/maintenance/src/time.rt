// Whether maintenance is in time.
ghost use Rattle.std.specs.Prelude.{◌≡◌};
ghost use Rattle.maintenance.specs.Days.{serves, in_time};

// Whether maintenance on the day e counts on this day, so many days being allowed between.
fn serves(e: i16, day: u32, allowed: u16) -> bool
    ensures { result ≡ serves day allowed e }
{
    // Both counted from the lowest i16, so that no number is negative.
    let from = (e as i32 + 32_768) as u64;
    let to = day as u64 + 32_768;
    if from <= to {
        to - from <= allowed as u64
    } else {
        false
    }
}

// Whether maintenance on some listed day counts on this day.
pub fn in_time(list: &[i16], day: u32, allowed: u16) -> bool
    ensures { result ≡ in_time list.now day allowed }
{
    list.iter().any(|listed| serves(*listed, day, allowed))
}
