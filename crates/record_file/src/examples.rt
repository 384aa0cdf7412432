// The files worked by hand, which the rules themselves are shown to judge as they should.
ghost use Rattle.std.specs.Prelude.{◌≡◌, length};
ghost use Rattle.record_file.specs.WorkedExamples.{examples, EachHolds};

// How many files were worked by hand: each is shown to have the verdict that it should have.
pub fn worked_examples() -> usize
    ensures count { result ≡ length examples }
    ensures holds { EachHolds examples }
{
    4
}
