// The search for the first offence (the standard, "Who can bring a number about": the first offence decides).
ghost use Rattle.std.specs.Prelude.{◌≡◌, ℕ, ◌+◌, ◌*◌, ◌≤◌, ◌<◌, Bool};
ghost use Rattle.program.specs.Choice.{first_bad};

// The first of n offsets, `step` apart from `at` on, that is not good.
#[tactic(auto, using(crate::proofs::Search::first_bad_at, crate::proofs::Search::first_bad_all))]
pub fn first_bad<F: Fn(usize) -> bool>(good: F, at: usize, step: usize, n: usize) -> Option<usize>
    requires fits { at + step * n ≤ usize.MAX }
    requires tested { (i : ℕ) → i < n → F.pre good (at + step * i) }
    ensures { (test : ℕ → Bool)
        → ((i : ℕ) (b : Bool) → i < n → F.post good (at + step * i) b → b ≡ test (at + step * i))
        → result ≡ first_bad test step n at }
{
    for i in 0..n {
        let here = at + step * i;
        if !good(here) {
            return Some(here);
        }
    }
    None
}
