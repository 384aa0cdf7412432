// Runs the check of a record file over the table of cases on standard input, and then over files made by rule.
#![tactic(auto)]

mod made;
mod runner;
mod table;
mod unreadable;
mod verdicts;
mod words;

use case_count::Count;
use record_file::worked_examples;
use runner::Runner;
use std::io;

fn main(rt: HostRuntime) -> io::Result<()> {
    let text = io::read_to_string(rt.alloc(), rt.stdin())?;
    let mut runner = Runner::new(&rt);
    for line in text.as_str().lines().filter(|line| is_case(line)) {
        runner.run_line(line)?;
    }
    made::run(&mut runner)?;
    let proved = worked_examples();
    println!(rt; "{proved} examples worked by hand are proved of the rules")?;
    let Count { cases, wrong } = runner.count();
    println!(rt; "{cases} cases, {wrong} wrong")
}

// Empty lines and comments stand between the cases.
fn is_case(line: &str) -> bool {
    !line.is_empty() && !line.starts_with("#")
}
