// What the walk counts: the beginning, and a death, a cut or a step more.
ghost use Rattle.std.specs.Prelude.{◌≡◌, ◌<◌, ◌≤◌};
ghost use Rattle.path.specs.Internal.Counts.{Few, death_more, cut_more, step_more};

// The numbers of death paths, cut paths and steps. Before the first step all are zero.
#[derive(Clone, Copy, Default)]
pub struct Counts {
    pub deaths: u64,
    pub cuts: u64,
    pub steps: u64,
}

impl Counts {
    // The counts with one death path more.
    pub fn with_death(self) -> Counts
        requires { Few self × (self.steps < 1000000) }
        ensures { result ≡ death_more self }
    {
        Counts {
            deaths: self.deaths + 1,
            ..self.with_step()
        }
    }

    // The counts with one cut path more.
    pub fn with_cut(self) -> Counts
        requires { Few self × (self.steps < 1000000) }
        ensures { result ≡ cut_more self }
    {
        Counts {
            cuts: self.cuts + 1,
            ..self.with_step()
        }
    }

    // The counts with one step more, and no ended path.
    pub fn with_step(self) -> Counts
        requires { self.steps ≤ 1000000 }
        ensures { result ≡ step_more self }
    {
        Counts {
            steps: self.steps + 1,
            ..self
        }
    }
}
