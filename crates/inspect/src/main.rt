// Prints what a record file on standard input holds, or why it is refused.
#![tactic(auto)]

mod input;

use file_report::{count_records, counts_line, explanation, option_line, refusal_line};
use input::read_at_most;
use record_file::{Fault, LONGEST_FILE, RECORD_LENGTH, Record};
use std::io;

fn print_book(rt: &HostRuntime, file: &[u8]) -> io::Result<()> {
    // Records are read by their numbers.
    for number in 0..file.len() / RECORD_LENGTH {
        if let Some(
            Record::Domain {
                option,
                count,
                name,
            },
        ) = Record::read(file, number)
        {
            rt.println(option_line(rt.alloc(), option, name, count)?)?;
        }
    }
    rt.println(counts_line(rt.alloc(), &count_records(file))?)
}

fn print_refusal(rt: &HostRuntime, fault: &Fault) -> io::Result<()> {
    rt.println(refusal_line(rt.alloc(), fault)?)?;
    rt.println(explanation(fault))
}

fn print_report(rt: &HostRuntime, file: &[u8]) -> io::Result<()> {
    match record_file::check(file) {
        Ok(()) => print_book(rt, file),
        Err(fault) => print_refusal(rt, &fault),
    }
}

// Says on standard error what failed.
fn tell(rt: &HostRuntime, deed: &str, error: &io::Error) {
    let _ = eprintln!(rt; "inspect: cannot {deed}: {error}");
}

fn main(rt: HostRuntime) -> io::Result<()> {
    // One byte more than the longest file tells a file that is too long, and an endless input is read no further.
    let input = read_at_most(rt.alloc(), &mut rt.stdin(), LONGEST_FILE + 1);
    let file = input.inspect_err(|error| tell(&rt, "read standard input", error))?;
    let printed = print_report(&rt, &file);
    printed.inspect_err(|error| tell(&rt, "write to standard output", error))
}
