// A lowest and a highest, which are both inside.
ghost use Rattle.std.specs.Prelude.{◌≡◌, ◌||◌};
ghost use Rattle.std.specs.Ordering.{partial_lt};

#[derive(Clone, Copy)]
pub struct Limits<T> {
    pub lowest: T,
    pub highest: T,
}

impl<T: PartialOrd + Copy> Limits<T> {
    // Whether a value lies outside.
    pub fn exclude(self, value: T) -> bool
        ensures { result ≡ (partial_lt T.partial_cmp value self.lowest || partial_lt T.partial_cmp self.highest value) }
    {
        (value < self.lowest) | (self.highest < value)
    }

    // Whether they reach outside of these bounds, or are reversed.
    pub fn wrong(self, bounds: Limits<T>) -> bool
        ensures { result ≡ (partial_lt T.partial_cmp self.lowest bounds.lowest || partial_lt T.partial_cmp bounds.highest self.lowest || (partial_lt T.partial_cmp self.highest bounds.lowest || partial_lt T.partial_cmp bounds.highest self.highest) || partial_lt T.partial_cmp self.highest self.lowest) }
    {
        bounds.exclude(self.lowest) | bounds.exclude(self.highest) | (self.highest < self.lowest)
    }
}
