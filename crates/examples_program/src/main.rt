// Three things to look at, one after the other: the rules' examples and the lines that are only run, one set in several orders, and every
// kind of message with every wrong length. What each writes is in the file stdout.
#![tactic(auto)]

mod examples;
mod messages;
mod orders;
mod run_only;
mod writing;

fn main(rt: HostRuntime) {
    examples::all(&rt);
    orders::all(&rt);
    messages::all(&rt);
}
