// The tariff that a question asks for.
ghost use Rattle.std.specs.Prelude.{◌≡◌, Some};
ghost use Rattle.desk.specs.Tariffs.{by_minutes, tariff_name, tariff_named};

use std::fmt;
use text::cut::cut_at;
use text::numbers::number_of;

#[derive(Clone, Copy, PartialEq, Eq, Debug)]
pub enum Asked {
    // with the penalty for a change, which may be one that the tariff refuses
    Minutes { penalty: u16 },
    Fares,
    Waits,
}

// The tariff that the word names: `minutes:PENALTY`, `fares` or `waits`.
pub fn tariff_named(word: &[u8]) -> Option<Asked>
    ensures { result ≡ tariff_named word.now }
{
    match word {
        b"fares" => Some(Asked::Fares),
        b"waits" => Some(Asked::Waits),
        _ => by_minutes(word),
    }
}

fn by_minutes(word: &[u8]) -> Option<Asked>
    ensures { result ≡ by_minutes word.now }
{
    let parts = cut_at(word, b':');
    match parts.front {
        b"minutes" => {
            let penalty = number_of(parts.behind, u16::MAX)?;
            Some(Asked::Minutes { penalty })
        }
        _ => None,
    }
}

// The word that names the tariff.
impl fmt::Display for Asked {
    ghost output = { λ a. Some (tariff_name a) };

    fn fmt<W: fmt::Write>(&self, f: &mut fmt::Formatter<W>) -> fmt::Result {
        match self {
            Asked::Minutes { penalty } => write!(f, "minutes:{penalty}"),
            Asked::Fares => write!(f, "fares"),
            Asked::Waits => write!(f, "waits"),
        }
    }
}
