// What a line is held to.
ghost use Rattle.std.specs.Prelude.{◌≤◌};
ghost use Rattle.rules.specs.Limits.{max_levels};

// So many open levels, no more than a line record has room for, and the number of the refusal of one more.
#[derive(Clone, Copy)]
pub struct LineLimits {
    pub levels: usize,
    pub deep: u32,
    pub ghost few: { levels ≤ max_levels },
}
