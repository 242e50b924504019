// The console, on an input whose last line has 1025 bytes and no newline.
#![tactic(auto)]

fn main(rt: HostRuntime) {
    session::play(&rt);
}
