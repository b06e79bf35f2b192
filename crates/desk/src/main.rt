// The program `desk`: standard input to standard output.
#![tactic(auto)]

fn main(rt: HostRuntime) {
    desk_run::run(&rt, &mut rt.stdin());
}
