// The block program once more, on an input that fills its buffer: a program is run on one standard input alone.
#![tactic(auto)]

use print::answer_reader;
use std::io;

fn main(rt: HostRuntime) -> io::Result<()> {
    answer_reader(rt.alloc(), rt.stdin(), &mut rt.stdout())
}
