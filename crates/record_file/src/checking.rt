// The check of a file: acceptance, or the first fault in the order in which faults are looked for.
ghost use Rattle.std.specs.Prelude.{◌≡◌, is_ok, IfErr, Decides, MatchResult};
ghost use Rattle.record_file.specs.Faults.{SoundFile, Sound, FirstFault};

use crate::candidate::Candidate;
use crate::fault::{Fault, Rule};
use crate::layout::{LONGEST_FILE, RECORD_LENGTH, RawRecord};
use crate::tally::Tally;

// Refuses a file that has a fault as a whole, under the first of them.
fn check_length(file: &[u8]) -> Result<(), Fault>
    ensures { MatchResult result (λ _. SoundFile file.now) (FirstFault file.now) }
{
    let records = file.len() / RECORD_LENGTH;
    if file.len() > LONGEST_FILE {
        return Err(Fault::new(Rule::TooLong, LONGEST_FILE / RECORD_LENGTH, 0));
    }
    if file.len() % RECORD_LENGTH != 0 {
        return Err(Fault::new(Rule::PartialRecord, records, 0));
    }
    if records == 0 {
        return Err(Fault::new(Rule::NoRecord, 0, 0));
    }
    Ok(())
}

// Accepts a file exactly if it breaks no rule, and otherwise names its first fault, of which there is only one.
pub fn check(file: &[u8]) -> Result<(), Fault>
    ensures accepts { Decides (is_ok result) (Sound file.now) }
    ensures names { IfErr result (FirstFault file.now) }
    ensures only { IfErr result (λ f. (g : Fault) → FirstFault file.now g → g ≡ f) }
{
    check_length(file)?;
    let mut tally = Tally::new();
    // A record's number goes into its fault, so records are counted.
    for number in 0..file.len() / RECORD_LENGTH {
        let record = RawRecord { file, number };
        let candidate = Candidate {
            record,
            tally: &tally,
        };
        candidate.check()?;
        tally.add(file, number);
    }
    Ok(())
}
