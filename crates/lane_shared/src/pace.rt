// How many background steps are done in one hold of the lock: the caller's choice.

/// A closure that answers how many steps to do. Each function that asks it requires that it may be called on every
/// pair and answers 1 to 64, since a struct cannot keep such a fact of a closure of any type.
#[derive(Drop)]
pub struct Pace<F> {
    f: F,
}

impl<F: Fn(u64, u64) -> u64> Pace<F> {
    ghost use Rattle.std.specs.Prelude.{◌≡◌, ◌≤◌};
    ghost use Rattle.lane_shared.specs.Pace.{AnswersSteps, asked_by};

    /// A pace that asks this closure.
    pub fn new(f: F) -> Pace<F>
        requires callable { F.IsAlwaysCallable f }
        requires answers { AnswersSteps (F.post f) }
        ensures { asked_by result ≡ f }
    {
        Pace { f }
    }

    /// The number of steps to do in this turn of the background work, with so much of it left: 1 to 64.
    pub fn ask(&self, turn: u64, left: u64) -> u64
        requires callable { F.IsAlwaysCallable (asked_by self.now) }
        requires answers { AnswersSteps (F.post (asked_by self.now)) }
        ensures asked { F.post (asked_by self.now) turn left result }
        ensures low { 1 ≤ result }
        ensures high { result ≤ 64 }
    {
        (self.f)(turn, left)
    }
}
