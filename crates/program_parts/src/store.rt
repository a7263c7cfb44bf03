// The store that a run is lent.
ghost use Rattle.std.specs.Prelude.{◌≡◌, ◌≤◌, min, take};

// As many values as a store is lent: a script has at most 16 variables, and a store of 17 is refused where a longer one would be.
pub const STORE: usize = 17;

// The first values of these.
#[derive(Clone, Copy)]
pub struct Store {
    pub values: [i32; STORE],
    pub count: usize,
    pub ghost few: { count ≤ 17 },
}

impl Store {
    pub fn new(values: [i32; STORE], count: usize) -> Store
        ensures values { result.values ≡ values }
        ensures count { result.count ≡ min count 17 }
    {
        Store {
            values,
            count: count.min(STORE),
        }
    }

    pub fn as_slice(&self) -> &[i32]
        ensures { result.now ≡ take self.now.count self.now.values }
    {
        &self.values[..self.count]
    }
}
