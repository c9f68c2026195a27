// The program jerungkal: the first 64 KiB of its input are the stream, and its transcript is printed.
#![tactic(auto)]

fn main(rt: HostRuntime) {
    if let Some(mut source) = inputs::open(&rt) {
        stream_lines::print_lines(&rt, &mut source);
    }
}
