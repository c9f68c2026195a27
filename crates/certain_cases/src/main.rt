// The program certain_cases: the console over published frames with as many marks as can be brought back, and with one more.
#![tactic(auto)]

fn main(rt: HostRuntime) {
    if let Some(mut source) = inputs::open(&rt) {
        let mut piece = [0u8; 65536];
        console_lines::run(&rt, &mut source, &mut piece);
    }
}
