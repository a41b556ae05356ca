// How many places a long shift goes.
ghost use Rattle.std.specs.Prelude.{◌≡◌, ◌<◌, ◌≤◌};

// From 1 to 16 places.
#[derive(Clone, Copy)]
pub(crate) struct Places {
    pub(crate) count: u32,
    ghost some: { 0 < count },
    ghost few: { count ≤ 16 },
}

impl Places {
    ghost use Rattle.word.specs.Long.{places};

    // The low four bits, where 0 means 16.
    pub(crate) fn of(n: u16) -> Places
        ensures { result.count ≡ places n }
    {
        let count = match n % 16 {
            0 => 16,
            count => u32::from(count),
        };
        Places { count }
    }
}
