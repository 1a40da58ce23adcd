// Compares the angle functions with the host's values at the places of the stored list on standard input.
#![tactic(auto)]

mod list;
mod verdicts;

use list::{Asked, Function};
use std::io;
use text::read_full;
use verdicts::Verdict;

// The list has to be shorter.
const ROOM: usize = 262144;

// How many places of a function were compared, and with what outcome.
#[derive(Clone, Copy, Default)]
struct Tally {
    places: u64,
    near: u64,
    same: u64,
}

impl Tally {
    fn count(&mut self, verdict: Verdict) {
        let is_same = matches!(verdict, Verdict::Same);
        let is_near = is_same || matches!(verdict, Verdict::Near);
        self.places = self.places.wrapping_add(1);
        self.near = self.near.wrapping_add(is_near as u64);
        self.same = self.same.wrapping_add(is_same as u64);
    }
}

// What has been compared so far.
#[derive(Clone, Copy, Default)]
struct Judged {
    wrong: u64,
    cosine: Tally,
    sine: Tally,
    arccosine: Tally,
}

fn report(rt: &impl Print, name: &str, t: Tally) -> io::Result<()> {
    println!(rt;
        "{name}: {} places, {} within 2^-50, {} with the host's very bits",
        t.places, t.near, t.same
    )
}

impl Judged {
    fn fault(&mut self, rt: &impl Print, s: &[u8], at: usize, what: &str) -> io::Result<()> {
        self.wrong = self.wrong.wrapping_add(1);
        println!(rt; "line {}: {what}", list::line_number(s, at))
    }

    fn judge(&mut self, rt: &impl Print, s: &[u8], asked: Asked) -> io::Result<()> {
        let verdict = verdicts::judged(asked.case);
        match asked.case.function {
            Function::Cosine => self.cosine.count(verdict),
            Function::Sine => self.sine.count(verdict),
            Function::Arccosine => self.arccosine.count(verdict),
        }
        match verdict {
            Verdict::Same | Verdict::Near => Ok(()),
            Verdict::Far => self.fault(
                rt,
                s,
                asked.from,
                "farther than 2^-50 from the host's value",
            ),
            Verdict::Refused => self.fault(rt, s, asked.from, "refused"),
        }
    }

    fn is_good(self) -> bool {
        self.wrong == 0
            && self.cosine.places != 0
            && self.sine.places != 0
            && self.arccosine.places != 0
    }
}

// Every turn but the last passes a byte or more.
fn whole_list(rt: &impl Print, s: &[u8]) -> io::Result<Judged> {
    let mut so_far = Judged::default();
    let mut at = 0;
    for _ in 0..s.len() {
        match list::read(s, at) {
            Some(Ok(asked)) => {
                so_far.judge(rt, s, asked)?;
                at = asked.to;
            }
            Some(Err(malformed)) => {
                so_far.fault(rt, s, malformed.from, "malformed")?;
                at = list::line_end(s, malformed.from);
            }
            None => break,
        }
    }
    Ok(so_far)
}

fn main(rt: HostRuntime) -> io::Result<()> {
    let mut room = [0u8; ROOM];
    let s = read_full(&mut rt.stdin(), &mut room)?;
    if s.len() == ROOM {
        return println!(&rt; "WRONG: the list fills the program's room");
    }
    let j = whole_list(&rt, s)?;
    report(&rt, "cosine", j.cosine)?;
    report(&rt, "sine", j.sine)?;
    report(&rt, "arccosine", j.arccosine)?;
    if j.is_good() {
        println!(&rt; "ok")
    } else {
        println!(&rt; "WRONG")
    }
}
