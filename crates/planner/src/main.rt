// The program `planner`: a sheet from standard input, its plan or its refusal to standard output.
#![tactic(auto)]

fn main(rt: HostRuntime) {
    program::run(&rt);
}
