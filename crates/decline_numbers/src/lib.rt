// Declines by their number and place, as tables of calls list them: the numbers are what the pool publishes, and what
// such a table is to hold.
#![tactic(auto)]

ghost use Rattle.std.specs.Prelude.{◌≡◌, MatchResult};
ghost use Rattle.terms.specs.Declines.{number_of};

use terms::Decline;

// What an answer says: nothing, or the number and place of its decline.
pub type Said = Result<(), (u32, usize)>;

// The number and place of a decline. A name says which two numbers, as a `From` for a pair would not.
pub fn numbered(decline: Decline) -> (u32, usize)
    ensures { result ≡ (number_of decline.cause, decline.place) }
{
    (decline.cause.number(), decline.place)
}

// What an answer says, whatever it gives.
pub fn said<T: Drop>(answer: Result<T, Decline>) -> Said
    ensures { MatchResult answer (λ _. result ≡ Ok tt) (λ d. result ≡ Err (number_of d.cause, d.place)) }
{
    answer.map(|_| ()).map_err(numbered)
}
