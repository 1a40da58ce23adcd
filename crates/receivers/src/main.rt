// A bank of jobs run by the commands of standard input. Every line is a command or belongs to one (README.md has them all).
#![tactic(auto)]

mod bench;
mod calls;
mod comparing;
mod patching;
mod saying;

use bench::Bench;
use std::io;
use text::{Word, read_full};

// The commands have to be shorter.
const ROOM: usize = 65536;

// Where the line that `at` stands in ends; `at` where none does.
fn line_end(s: &[u8], at: usize) -> usize {
    for i in at..s.len() {
        if s[i] == b'\n' {
            return i;
        }
    }
    at
}

// A command by its name; what is none is passed over.
fn command(rt: &impl Print, s: &[u8], word: Word, bench: &mut Bench) -> io::Result<()> {
    let at = word.to;
    match text::part(s, word) {
        b"open" => bench.open(rt, s, at),
        b"step" => bench.step(rt, s, at),
        b"finish" => bench.finish(rt, s, at),
        b"clear" => bench.clear(rt, s, at),
        b"compare" => bench.compare(rt, s, at),
        b"save" => bench.save(rt, s, at),
        b"restore" => bench.restore(rt, s, at),
        b"plan" => bench.plan(rt, s, at),
        b"unmade" => bench.unmade(rt, s, at),
        _ => Ok(()),
    }
}

fn run(rt: &impl Print, s: &[u8], bench: &mut Bench) -> io::Result<()> {
    let mut at = 0;
    // Word after word: every turn passes one.
    for _ in 0..s.len() {
        let Some(word) = text::next(s, at) else {
            break;
        };
        at = word.to;
        if text::is(s, word, b"say") {
            at = line_end(s, at);
            rt.write_all(s.get(word.to..at).unwrap_or(&[]))?;
            println!(rt;)?;
        } else {
            command(rt, s, word, bench)?;
        }
    }
    Ok(())
}

fn main(rt: HostRuntime) -> io::Result<()> {
    let mut room = [0u8; ROOM];
    let s = read_full(&mut rt.stdin(), &mut room)?;
    if s.len() == ROOM {
        return println!(&rt; "WRONG: the commands fill the program's room");
    }
    run(&rt, s, &mut Bench::new())
}
