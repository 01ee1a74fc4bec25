// Which lists are allowed, and how one is kept.
ghost use Rattle.std.specs.Prelude.{◌≡◌, ◌||◌};
ghost use Rattle.std.specs.Int.Signed.{lt_z, le_z};
ghost use Rattle.maintenance.specs.Days.{list_wrong, maintenance_of};

// The days are the first `listed` places: an array with its length, since nothing here has the heap.
#[derive(Clone, Copy)]
pub struct Maintenance {
    pub days: [i16; Maintenance::MOST],
    pub listed: usize,
}

impl Maintenance {
    // How many days a list may have, and the first that it may have.
    pub const MOST: usize = 64;

    pub const FIRST: i16 = -3_660;

    // The list. Of one that is longer than is allowed the first days, under its own length.
    #[tactic(auto, using(crate::proofs::Kept::all_kept))]
    pub fn of(list: &[i16]) -> Maintenance
        ensures { result ≡ maintenance_of list.now }
    {
        let listed = list.len();
        let kept = listed.min(Maintenance::MOST);
        let mut days = [0i16; Maintenance::MOST];
        days[..kept].copy_from_slice(&list[..kept]);
        Maintenance { days, listed }
    }
}

// Whether a day does not rise above the day before it, or is after the last.
fn out_of_place(day: i16, before: i16, last: i16) -> bool
    ensures { result ≡ (le_z day before || lt_z last day) }
{
    (day <= before) | (last < day)
}

// Whether a list has too many days, does not rise strictly, or leaves the days from the first allowed to `last`.
pub fn list_wrong(list: &[i16], last: i16) -> bool
    ensures { result ≡ list_wrong list.now last }
{
    if Maintenance::MOST < list.len() {
        return true;
    }
    let mut before: i16 = Maintenance::FIRST - 1;
    for day in list {
        if out_of_place(*day, before, last) {
            return true;
        }
        before = *day;
    }
    false
}
