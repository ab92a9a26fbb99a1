#![tactic(auto)]

// The depot's images by command: see commands.
fn main(rt: HostRuntime) {
    commands::run_arguments(&rt);
}
