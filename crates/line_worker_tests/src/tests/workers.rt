//! Workers step by step on one thread, and in threads of their own.
mod forgets;
mod gatherings;
mod lines;
mod posts;
mod reports;
mod restart_steps;
mod restarts;
mod rings;
mod round_steps;
mod rounds;
mod seen;
mod steps;
mod threads;
