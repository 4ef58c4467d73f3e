// The refusals of the report line, in their order: 1, 6; the line's room by its length.
#![tactic(auto)]

ghost use Rattle.std.specs.Prelude.{◌≡◌};
ghost use Rattle.rules.specs.Refusal as refusal;
ghost use Rattle.refuse.specs.Verdicts as by;
ghost use Rattle.line_refusal.specs.Checks.{line_list};

use refuse::Refusal;

// What the report line refuses: 1, of what is not as many counts as a report has, and 6, of a line under 512 bytes.
pub fn line_refusal(counts: &[u32], line: usize) -> Result<(), Refusal>
    ensures { by.check_of result ≡ refusal.decided (line_list counts.now line) }
{
    if counts.len() != rules::COUNTS {
        return Err(Refusal::BadLength(2));
    }
    if line < 512 {
        return Err(Refusal::ShortRoom(0));
    }
    Ok(())
}
