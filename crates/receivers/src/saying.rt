// What a person is told.
use numbers::Refusal;
use std::io;

// That a call on a slot did what it is named for, or why not.
pub(crate) fn say_done(
    rt: &impl Print,
    slot: usize,
    done: &str,
    answer: Result<(), Refusal>,
) -> io::Result<()> {
    match answer {
        Ok(()) => println!(rt; "slot {slot}: {done}"),
        Err(why) => println!(rt; "slot {slot}: refused with {}", u64::from(why)),
    }
}
