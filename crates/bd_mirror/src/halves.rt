ghost use Rattle.std.specs.Prelude.{◌≡◌, if◌then◌else◌};
ghost use Rattle.bd_mirror.specs.declared.halves.Halves.TheVariants.{Neither};
ghost use Rattle.bd_mirror.specs.Halves.{halves_of, with_halves};

/// Which halves of a pair are in use.
#[derive(Clone, Copy, PartialEq, Eq)]
pub enum Halves {
    /// Both.
    Both,
    /// The first alone, since the second failed.
    First,
    /// The second alone, since the first failed.
    Second,
    /// Neither, since both failed: the mirror is broken.
    Neither,
}

/// What is attached.
#[derive(Clone, Copy, PartialEq, Eq)]
pub enum Attached {
    /// Nothing.
    Nothing,
    /// The first half alone, all of whose blocks are the mirror's.
    Alone,
    /// The first half alone, whose last block is its mark.
    Member,
    /// Two halves of as many blocks, the last of each being its mark.
    Pair(Halves),
    /// Two halves that differ in their blocks or have none: there are no marks.
    Apart(Halves),
}

impl Attached {
    // Which halves are in use.
    pub fn halves(self) -> Halves
        ensures { result ≡ halves_of self }
    {
        match self {
            Attached::Nothing => Halves::Neither,
            Attached::Alone | Attached::Member => Halves::First,
            Attached::Pair(halves) | Attached::Apart(halves) => halves,
        }
    }

    // The same with these halves in use.
    pub fn with(self, halves: Halves) -> Attached
        ensures { result ≡ with_halves halves self }
    {
        match self {
            Attached::Nothing => Attached::Nothing,
            Attached::Alone => Attached::Alone,
            Attached::Member => Attached::Member,
            Attached::Pair(_) => Attached::Pair(halves),
            Attached::Apart(_) => Attached::Apart(halves),
        }
    }

    // The same with this half alone in use, where its mark is open, and else with neither.
    pub fn kept(self, half: Halves, is_open: bool) -> Attached
        ensures { result ≡ with_halves (if is_open then half else Neither) self }
    {
        self.with(if is_open { half } else { Halves::Neither })
    }
}
