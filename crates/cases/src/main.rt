// The standard's cases that have no star, executed through the public calls, then those of its mistakes that look reasonable which a call
// can show, then cases of what a block states, then moves of a thread whose record is lent. Each prints a line; the file stdout beside
// src/ holds what the standard says. (The starred cases are proved: crates/hogunlas/specs/Cases.antt.)
#![tactic(auto)]

mod code;
mod mistakes;
mod moves;
mod show;
mod statements;
mod unstarred;

use std::io;

fn main(rt: HostRuntime) -> io::Result<()> {
    unstarred::empty_file(&rt)?;
    unstarred::empty_list(&rt)?;
    unstarred::own_counts(&rt)?;
    unstarred::sixteen_entries(&rt)?;
    unstarred::seventeenth_entry(&rt)?;
    unstarred::read_before_take(&rt)?;
    unstarred::repeated_outside_a_block(&rt)?;
    unstarred::repeated_within_a_block(&rt)?;
    mistakes::atomic_then_atomic(&rt)?;
    mistakes::closure_of_atomic(&rt)?;
    mistakes::left_joined_with_right(&rt)?;
    mistakes::locks_of_the_then_part(&rt)?;
    mistakes::writers_of_an_open_variable(&rt)?;
    mistakes::one_writer(&rt)?;
    statements::true_statements(&rt)?;
    statements::false_statements(&rt)?;
    statements::other_offences(&rt)?;
    statements::shown(&rt)?;
    moves::results(&rt)?;
    moves::signed(&rt)?;
    moves::places(&rt)
}
