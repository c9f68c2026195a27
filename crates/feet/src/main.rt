// The program feet: each line of its input is an AC in decimal, and is answered by one line before the next is waited for.
#![tactic(auto)]

fn main(rt: HostRuntime) {
    if let Some(mut source) = inputs::open(&rt) {
        let mut piece = [0u8; 65536];
        feet_lines::run(&rt, &mut source, &mut piece);
    }
}
