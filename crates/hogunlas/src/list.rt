// The list of thread numbers that run is handed (the standard, "Who can bring a number about": 15).
ghost use Rattle.std.specs.Prelude.{true, ◌≡◌, ◌≤◌, ◌<◌, ◌&&◌, ltb, get_or, length, fold};
ghost use Rattle.program.specs.Choice.{first_bad};
ghost use Rattle.program.specs.Limits.{thread_limit};

use program::offence::first_bad;

// Whether each number of the list is below a limit. With no early end: so the compiler compares sixteen numbers at once, as its code shows;
// with an early end it compares one at a time.
fn all_below(list: &[u8], limit: u8) -> bool
    ensures { result ≡ fold (λ good t. good && ltb t limit) true list.now }
{
    list.iter().fold(true, |good, t| good & (*t < limit))
}

// Whether the number at an index of the list is a thread's. A function, so that what the closure below answers has a name that a proof
// can cite.
fn names_thread(list: &[u8], i: usize, threads: usize) -> bool
    requires { i < length list.now }
    ensures { result ≡ ltb (get_or list.now i 0) threads }
{
    usize::from(list[i]) < threads
}

// The first index of the list at which no thread's number stands, found fast where there is none.
pub fn first_bad_thread(list: &[u8], threads: usize) -> Option<usize>
    requires { threads ≤ thread_limit }
    ensures { result ≡ first_bad (λ i. ltb (get_or list.now i 0) threads) 1 (length list.now) 0 }
{
    if all_below(list, threads as u8) {
        return None;
    }
    first_bad(|i| names_thread(list, i, threads), 0, 1, list.len())
}
