// What the words of the command line ask for.
ghost use Rattle.std.specs.Prelude.{◌≡◌, ℕ, List, Some, Ok, Err, MatchResult, map, option_map, string_bytes};
ghost use denote.Ref.{Bor};
ghost use Rattle.desk.specs.Commands.{told, in_bytes, misuse_in_bytes, misuse_text, alone, of_file, given, options, searching, commanded};
ghost use Rattle.desk.specs.declared.command.Command.{Command};

use std::fmt;

// With its files.
#[derive(Clone, Copy, PartialEq, Eq, Debug)]
pub enum Command<S> {
    Help,
    Check {
        file: S,
    },
    Print {
        file: S,
    },
    Search {
        file: S,
        dates: Option<S>,
        exceptions: Option<S>,
    },
}

// Why the words cannot be followed.
#[derive(Clone, Copy, PartialEq, Eq, Debug)]
pub enum Misuse<S> {
    UnknownWord(S),
    // no file stands behind the word
    NoFile(S),
    Twice(S),
}

// In words.
impl fmt::Display for Misuse<&str> {
    ghost output = { λ m. Some (misuse_text (misuse_in_bytes m)) };

    fn fmt<W: fmt::Write>(&self, f: &mut fmt::Formatter<W>) -> fmt::Result {
        match self {
            Misuse::UnknownWord(word) => write!(f, "unknown word `{word}`"),
            Misuse::NoFile(word) => write!(f, "`{word}` is followed by no file"),
            Misuse::Twice(word) => write!(f, "`{word}` stands twice"),
        }
    }
}

type Asked<'a> = Result<Command<&'a str>, Misuse<&'a str>>;

// Nothing stands behind the words of the command.
fn alone<'a>(command: Command<&'a str>, behind: &'a [String]) -> Asked<'a>
    ensures { told result ≡ alone (in_bytes command.entry) (map string_bytes behind.now) }
{
    match behind.first() {
        None => Ok(command),
        Some(other) => Err(Misuse::UnknownWord(other.as_str())),
    }
}

// Just one file stands behind the word.
fn only_file<'a>(word: &'a str, behind: &'a [String]) -> Result<&'a str, Misuse<&'a str>>
    ensures { (command : List ℕ → Command (List ℕ)) → MatchResult result (λ file. of_file command word.now (map string_bytes behind.now) ≡ Ok (command file.now)) (λ misuse. of_file command word.now (map string_bytes behind.now) ≡ Err (misuse_in_bytes misuse)) }
{
    match behind {
        [] => Err(Misuse::NoFile(word)),
        [file] => Ok(file.as_str()),
        [_, other, ..] => Err(Misuse::UnknownWord(other.as_str())),
    }
}

// The file of an option that was not given before.
fn given<'a>(
    word: &'a str,
    before: Option<&'a str>,
    file: &'a str,
) -> Result<&'a str, Misuse<&'a str>>
    ensures { MatchResult result (λ found. given word.now (option_map (λ (b : Bor (List ℕ)). b.now) before.entry) file.now ≡ Ok found.now) (λ misuse. given word.now (option_map (λ (b : Bor (List ℕ)). b.now) before.entry) file.now ≡ Err (misuse_in_bytes misuse)) }
{
    match before {
        None => Ok(file),
        Some(_) => Err(Misuse::Twice(word)),
    }
}

// The options that are left, each with its file behind it.
fn options<'a>(
    file: &'a str,
    dates: Option<&'a str>,
    exceptions: Option<&'a str>,
    behind: &'a [String],
) -> Asked<'a>
    ensures { told result ≡ options file.now (option_map (λ (b : Bor (List ℕ)). b.now) dates.entry) (option_map (λ (b : Bor (List ℕ)). b.now) exceptions.entry) (map string_bytes behind.now) }
{
    match behind {
        [] => Ok(Command::Search {
            file,
            dates,
            exceptions,
        }),
        [word] => match word.as_str() {
            "--dates" | "--exceptions" => Err(Misuse::NoFile(word.as_str())),
            other => Err(Misuse::UnknownWord(other)),
        },
        [word, value, more @ ..] => match word.as_str() {
            "--dates" => {
                let found = given(word.as_str(), dates, value.as_str())?;
                options(file, Some(found), exceptions, more)
            }
            "--exceptions" => {
                let found = given(word.as_str(), exceptions, value.as_str())?;
                options(file, dates, Some(found), more)
            }
            other => Err(Misuse::UnknownWord(other)),
        },
    }
}

// The timetable's file, and then the options.
fn searching<'a>(word: &'a str, behind: &'a [String]) -> Asked<'a>
    ensures { told result ≡ searching word.now (map string_bytes behind.now) }
{
    match behind {
        [] => Err(Misuse::NoFile(word)),
        [file, more @ ..] => options(file.as_str(), None, None, more),
    }
}

// What the words ask for; none at all ask for help.
pub fn command_of(words: &[String]) -> Result<Command<&str>, Misuse<&str>>
    ensures { told result ≡ commanded (map string_bytes words.now) }
{
    let [word, behind @ ..] = words else {
        return Ok(Command::Help);
    };
    match word.as_str() {
        "--help" | "help" => alone(Command::Help, behind),
        "check" => {
            let file = only_file(word.as_str(), behind)?;
            Ok(Command::Check { file })
        }
        "print" => {
            let file = only_file(word.as_str(), behind)?;
            Ok(Command::Print { file })
        }
        "search" => searching(word.as_str(), behind),
        other => Err(Misuse::UnknownWord(other)),
    }
}
