// The program console: each line of its input is one call of the library, and is answered before the next is waited for.
#![tactic(auto)]

fn main(rt: HostRuntime) {
    if let Some(mut source) = inputs::open(&rt) {
        let mut piece = [0u8; 65536];
        console_lines::run(&rt, &mut source, &mut piece);
    }
}
