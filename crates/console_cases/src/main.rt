// The program console_cases: the console over the file that its one word names, which comes in pieces of one byte.
#![tactic(auto)]

fn main(rt: HostRuntime) {
    if let Some(mut source) = inputs::open(&rt) {
        let mut piece = [0u8; 1];
        console_lines::run(&rt, &mut source, &mut piece);
    }
}
