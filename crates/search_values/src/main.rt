// Runs the leaves of the search on the stored list of cases and compares them, bit for bit, with what pm-remez answered (the roots
// with a second writing of document 01: pm-remez has none).
#![tactic(auto)]

mod candidates;
mod intervals;
mod judging;
mod matrices;

use judging::Judged;
use std::io;
use text::{Word, read_full};

// The list has to be shorter.
const ROOM: usize = 524288;

// How the leaf of that name comes out; none where it is wrong or cannot be read.
fn judged(s: &[u8], leaf: Word) -> Option<Judged> {
    let at = leaf.to;
    match text::part(s, leaf) {
        b"first" => intervals::first(s, at),
        b"subdivide" => intervals::subdivide(s, at),
        b"colleague" => matrices::colleague(s, at),
        b"roots" => matrices::roots(s, at),
        b"prune" => candidates::prune(s, at),
        _ => None,
    }
}

// How the cases of a leaf come out.
#[derive(Clone, Copy)]
struct Tally {
    cases: u64,
    same: u64,
    refused: u64,
    known: u64,
}

impl Tally {
    fn count(&mut self, judged: Option<Judged>) {
        self.cases = self.cases.wrapping_add(1);
        match judged {
            Some(Judged::Same) => self.same = self.same.wrapping_add(1),
            Some(Judged::Refused) => self.refused = self.refused.wrapping_add(1),
            Some(Judged::Known) => self.known = self.known.wrapping_add(1),
            None => {}
        }
    }
}

fn counted(s: &[u8], name: &str) -> Tally {
    let mut t = Tally {
        cases: 0,
        same: 0,
        refused: 0,
        known: 0,
    };
    let mut at = 0;
    // Word after word: every turn passes one.
    for _ in 0..s.len() {
        let Some(word) = text::next(s, at) else {
            break;
        };
        if cases::is_case(s, word, name.as_bytes()) {
            if let Some(leaf) = text::next(s, word.to) {
                t.count(judged(s, leaf));
            }
        }
        at = word.to;
    }
    t
}

// The leaf's line; whether no case is wrong.
fn reported(rt: &impl Print, s: &[u8], name: &str) -> io::Result<bool> {
    let t = counted(s, name);
    println!(rt;
        "{name}: {} cases, {} with the very bits, {} refused by both, {} known differences",
        t.cases, t.same, t.refused, t.known
    )?;
    let right = t.same.wrapping_add(t.refused).wrapping_add(t.known);
    Ok(t.cases != 0 && t.cases == right)
}

fn is_all_good(rt: &impl Print, s: &[u8]) -> io::Result<bool> {
    let mut good = true;
    for name in ["first", "subdivide", "colleague", "roots", "prune"] {
        good &= reported(rt, s, name)?;
    }
    Ok(good)
}

// Kept: no plainer: what a program says in the end stands in its own main.
fn main(rt: HostRuntime) -> io::Result<()> {
    let mut room = [0u8; ROOM];
    let s = read_full(&mut rt.stdin(), &mut room)?;
    if s.len() == ROOM {
        return println!(&rt; "WRONG: the list fills the program's room");
    }
    if is_all_good(&rt, s)? {
        println!(&rt; "ok")
    } else {
        println!(&rt; "WRONG")
    }
}
