// How far a task is in the present period.
ghost use Rattle.std.specs.Prelude.{◌≡◌};
ghost use Rattle.cluster.specs.Cycles.{is_at_work, is_done};

#[derive(Clone, Copy, PartialEq, Eq, Debug)]
pub enum Stage {
    Ahead,
    AtWork,
    Done,
}

impl Stage {
    pub fn is_at_work(self) -> bool
        ensures { result ≡ is_at_work self }
    {
        matches!(self, Stage::AtWork)
    }

    pub fn is_done(self) -> bool
        ensures { result ≡ is_done self }
    {
        matches!(self, Stage::Done)
    }
}
