// Designs the filters that standard input asks for. A request followed by an answer of pm-remez is compared with it, bit for bit.
#![tactic(auto)]

mod asking;
mod judging;
mod page;
mod running;
mod saying;
mod tally;

use asking::Asked;
use judging::Judged;
use running::Run;
use std::io;
use tally::Tally;
use text::read_full;

// The requests have to be shorter.
const ROOM: usize = 524288;

// Which of the requests that are compared, counted from 0, and what came of it here.
fn say_case(rt: &impl Print, what: &str, number: u64, run: Run) -> io::Result<()> {
    match run.report {
        Ok(_) => println!(rt; "{what}: request {number}: a design"),
        Err(why) => println!(rt;
            "{what}: request {number}: refused with {} after exchange {}",
            u64::from(why),
            run.made
        ),
    }
}

// A request: printed, or compared with the answer that follows it.
fn answer(rt: &impl Print, s: &[u8], asked: Asked, t: &mut Tally) -> io::Result<()> {
    let mut taps = [0.0; 128];
    let mut freqs = [0.0; 65];
    let design = running::design_of(asked.request, &mut taps, &mut freqs);
    if !cases::is_word(s, asked.at, b"answer") {
        return page::say_design(rt, design);
    }
    let judged = judging::beside(s, cases::past(s, asked.at), design);
    match judged {
        Judged::Wrong => say_case(rt, "WRONG", t.asked, design.run)?,
        Judged::WentOn => say_case(rt, "pm-remez goes on", t.asked, design.run)?,
        _ => {}
    }
    t.count(judged, design);
    Ok(())
}

fn tallied(rt: &impl Print, s: &[u8]) -> io::Result<Tally> {
    let mut t = Tally::default();
    let mut at = 0;
    // Word after word: every turn passes one.
    for _ in 0..s.len() {
        let Some(word) = text::next(s, at) else {
            break;
        };
        if text::is(s, word, b"request") {
            match asking::asked_at(s, word.to) {
                Some(asked) => answer(rt, s, asked, &mut t)?,
                None => println!(rt; "WRONG: a request that cannot be read")?,
            }
        }
        at = word.to;
    }
    Ok(t)
}

fn main(rt: HostRuntime) -> io::Result<()> {
    let mut room = [0u8; ROOM];
    let s = read_full(&mut rt.stdin(), &mut room)?;
    if s.len() == ROOM {
        return println!(&rt; "WRONG: the requests fill the program's room");
    }
    let t = tallied(&rt, s)?;
    if 0 < t.asked {
        tally::say_tally(&rt, t)?;
    }
    Ok(())
}
