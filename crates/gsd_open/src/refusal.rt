// A test that decides alone.
ghost use Rattle.std.specs.Prelude.{◌≡◌};
ghost use Rattle.gsd_format.specs.Answers.{refusal_number, refused};
ghost use Rattle.gsd_format.specs.Refusals.{◌⇒◌};

use gsd_format::Refusal;

// Refused where the test holds: the last of a chain of tests, which four functions end with.
pub(crate) fn refuse(test: bool, why: Refusal) -> Result<(), Refusal>
    ensures { refused result ≡ (test ⇒ refusal_number why) }
{
    if test {
        return Err(why);
    }
    Ok(())
}
