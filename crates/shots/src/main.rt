// The program `shots`: standard input to standard output.
#![tactic(auto)]

fn main(rt: HostRuntime) {
    desk_run::run_shots(&rt, &mut rt.stdin());
}
