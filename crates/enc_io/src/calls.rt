// A count of calls, some of which are to fail.
ghost use Rattle.std.specs.Prelude.{◌≡◌, ◌↔◌, IsTrue, Contains};
ghost use Rattle.enc_io.specs.Calls.{next_call};

/// The numbers of the calls that are to fail, and how many calls were made.
#[derive(Drop)]
pub(crate) struct Calls {
    failing: Vec<u64>,
    made: u64,
}

impl Calls {
    pub(crate) fn new(failing: Vec<u64>) -> Self
        ensures { result ≡ record { failing = failing; made = 0 } }
    {
        Calls { failing, made: 0 }
    }

    // Counts a call, and says whether it is to fail.
    pub(crate) fn next_fails(&mut self) -> bool
        ensures counted { self.new ≡ record self.old { made = next_call self.old.made } }
        ensures fails { IsTrue result ↔ Contains self.old.failing.items (next_call self.old.made) }
    {
        self.made = self.made.saturating_add(1);
        self.failing.contains(&self.made)
    }
}
