// The console: commands from standard input, one a line, and one answer line each.
#![tactic(auto)]

fn main(rt: HostRuntime) {
    session::play(&rt);
}
