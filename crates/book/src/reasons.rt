// Why something is refused: the first of several reasons.
ghost use Rattle.std.specs.Prelude.{◌≡◌, [], ◌∷◌};
ghost use Rattle.book.specs.Answers.{ok_unless};
ghost use Rattle.book.specs.Reasons.{first_of};

// The reasons are given in the order in which they are looked for, each beside the test of whether it holds. Refused for
// the first that does.
pub fn first_of<R: Copy>(reasons: &[(bool, R)]) -> Result<(), R>
    ensures { result ≡ ok_unless (first_of reasons.now) }
{
    for reason in reasons {
        if reason.0 {
            return Err(reason.1);
        }
    }
    Ok(())
}

// Refused for the reason if it holds. So reasons can be looked for one at a time, where most calls have none and the tests of
// a list, which are all made, take too long.
pub fn refused_if<R: Copy>(holds: bool, reason: R) -> Result<(), R>
    ensures { result ≡ ok_unless (first_of ((holds, reason) ∷ [])) }
{
    if holds {
        return Err(reason);
    }
    Ok(())
}
