// Runs the leaves on the stored list of cases and compares them, bit for bit, with what pm-remez answered.
#![tactic(auto)]

mod filters;
mod interpolation;
mod judging;
mod plans;
mod polynomials;
mod reading;

use filters::{adjusted, edges, lookup, radians, realizable, taps};
use interpolation::{abscissas, delta, of_list, response};
use polynomials::nodes;
use std::io;
use text::{Word, read_full};

// The list has to be shorter.
const ROOM: usize = 524288;

// Whether the leaf of that name agrees; none where the case cannot be read.
fn judged(s: &[u8], leaf: Word) -> Option<bool> {
    let at = leaf.to;
    match text::part(s, leaf) {
        b"weights" => of_list(
            s,
            at,
            |x, out| barycentric::compute_barycentric_weights(x, out),
        ),
        b"delta" => delta(s, at),
        b"abscissas" => abscissas(s, at),
        b"response" => response(s, at),
        b"nodes" => nodes(s, at),
        b"coefficients" => of_list(
            s,
            at,
            |p, out| chebyshev::compute_cheby_coefficients(p, out),
        ),
        b"taps" => taps(s, at),
        b"lookup" => lookup(s, at),
        b"realizable" => realizable(s, at),
        b"edges" => edges(s, at),
        b"radians" => radians(s, at),
        b"adjusted_desired" => adjusted(s, at, |target, f| target.adjust_desired(f)),
        b"adjusted_weight" => adjusted(s, at, |target, f| target.adjust_weights(f)),
        _ => None,
    }
}

// How many cases of a leaf there are, and how many of them agree.
#[derive(Clone, Copy)]
struct Tally {
    cases: u64,
    agree: u64,
}

fn counted(s: &[u8], name: &str) -> Tally {
    let mut t = Tally { cases: 0, agree: 0 };
    let mut at = 0;
    // Word after word: every turn passes one.
    for _ in 0..s.len() {
        let Some(word) = text::next(s, at) else {
            break;
        };
        if cases::is_case(s, word, name.as_bytes()) {
            if let Some(leaf) = text::next(s, word.to) {
                let agrees = judged(s, leaf) == Some(true);
                t.cases = t.cases.wrapping_add(1);
                t.agree = t.agree.wrapping_add(agrees as u64);
            }
        }
        at = word.to;
    }
    t
}

// The leaf's line; whether every case agrees.
fn reported(rt: &impl Print, s: &[u8], name: &str) -> io::Result<bool> {
    let t = counted(s, name);
    println!(rt;
        "{name}: {} cases, {} with pm-remez's very bits",
        t.cases, t.agree
    )?;
    Ok(t.cases != 0 && t.cases == t.agree)
}

fn is_all_good(rt: &impl Print, s: &[u8]) -> io::Result<bool> {
    let mut good = true;
    for name in [
        "weights",
        "delta",
        "abscissas",
        "response",
        "nodes",
        "coefficients",
        "lookup",
        "realizable",
        "edges",
        "radians",
        "adjusted_desired",
        "adjusted_weight",
        "taps",
    ] {
        good &= reported(rt, s, name)?;
    }
    Ok(good)
}

// Kept: no plainer: what a program says in the end stands in its own main.
fn main(rt: HostRuntime) -> io::Result<()> {
    let mut room = [0u8; ROOM];
    let s = read_full(&mut rt.stdin(), &mut room)?;
    if s.len() == ROOM {
        return println!(&rt; "WRONG: the list fills the program's room");
    }
    if is_all_good(&rt, s)? {
        println!(&rt; "ok")
    } else {
        println!(&rt; "WRONG")
    }
}
