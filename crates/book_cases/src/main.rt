// Compares what rule books and tariffs answer with a reading of the records that shares no code with them.
#![tactic(auto)]

mod asked;
mod bars;
mod group;
mod joints;
mod limits;
mod made;
mod question;
mod reading;
mod refused;
mod sample;
mod samples;
mod session;
mod tariffs;

use case_count::Count;
use session::Session;
use std::io;

fn main(rt: HostRuntime) -> io::Result<()> {
    let mut session = Session::new(&rt);
    run_all(&mut session)?;
    let Count { cases, wrong } = session.count();
    println!(rt; "{cases} answers, {wrong} wrong")
}

fn run_all(session: &mut Session) -> io::Result<()> {
    samples::run(session)?;
    made::run(session)?;
    limits::run(session)?;
    joints::run(session)?;
    refused::run(session)?;
    bars::run(session)?;
    tariffs::run(session)
}
