// The cheaper of two that have a total, and a label with a step more.
ghost use Rattle.std.specs.Prelude.{◌≡◌, option_map};
ghost use Rattle.connection.specs.Choosing.{cheaper};
ghost use Rattle.search.specs.Working.{costs_at_most, stepped};

use connection::label::Label;
use tariff::Tariff;
use tariff::step::Step;

// What has a total, and is chosen by it.
pub trait Priced<T>: Copy {
    ghost total_of: { Self → T };

    fn total(&self) -> T
        ensures { result ≡ total_of self.now };
}

impl<T: Copy> Priced<T> for Label<T> {
    ghost total_of = { λ l. l.total };

    fn total(&self) -> T {
        self.total
    }
}

// The first where both cost the same. What is missing is dearer than anything.
pub fn cheaper<P: Tariff, L: Priced<P::Total>>(tariff: &P, a: Option<L>, b: Option<L>) -> Option<L>
    ensures { result ≡ cheaper (costs_at_most (P.Tariff.meaning tariff.now) L.total_of) a b }
{
    match (a, b) {
        (Some(first), Some(second)) => {
            if tariff.at_most(first.total(), second.total()) {
                Some(first)
            } else {
                Some(second)
            }
        }
        _ => a.or(b),
    }
}

// The label of who goes on by the step.
pub fn with_step<P: Tariff>(
    tariff: &P,
    label: Option<Label<P::Total>>,
    step: Step,
) -> Option<Label<P::Total>>
    ensures { result ≡ option_map (stepped (P.Tariff.meaning tariff.now) step) label }
{
    label.map(|before| Label {
        total: tariff.add(before.total, step),
        ..before
    })
}
