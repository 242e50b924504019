// The console, on an input whose last line has 1023 bytes and no newline.
#![tactic(auto)]

fn main(rt: HostRuntime) {
    session::play(&rt);
}
