ghost use Rattle.std.specs.Prelude.{◌≡◌, ◌↔◌, ℕ, [], ◌∷◌, Some, IfSome};
ghost use Rattle.top_call.specs.Asking.{Ask, IsCount, IsCounted, IsAsked};
ghost use Rattle.top_call.specs.declared.words.Asked.{Asked};

use script_reading::Clients;

/// What the words of the command line ask for.
#[derive(Clone, Copy, Debug, PartialEq, Eq)]
pub enum Asked {
    /// The report of the script on the source: by `run` it may have clients at work at once, by `plain` none, and by `watch` clients
    /// that follow keys.
    Report(Clients),
    /// The generated script of so many steps, its last two apart.
    Generate(u32),
    /// The final block of that script's run.
    Summarize(u32),
    /// The report of the script on the source, which may have no clients, where so many stores are handed on together.
    Behind(u8),
    /// The stored entry on the source, in format 2.
    Upgrade,
    /// The trace of the script on the source, which may have no clients and no settles.
    Trace,
    /// What is to be said of the trace on the source.
    Check,
}

/// The most steps that a script is generated with, its last two apart.
const MOST_STEPS: u32 = 4094;

/// The most stores that are handed on together.
const MOST_PERIOD: u32 = 64;

/// The number of steps that a word is, in decimal without a sign or a leading zero.
fn count(word: &str) -> Option<u32>
    ensures { (n : ℕ) → (result ≡ Some n) ↔ IsCount n word.now }
{
    let first = word.as_bytes().first()?;
    if *first <= b'0' {
        return None;
    }
    match word.parse::<u32>() {
        Ok(n) if n <= MOST_STEPS => Some(n),
        _ => None,
    }
}

/// What one word asks for.
fn asked_alone(clients: Clients, word: &str) -> Option<Asked>
    ensures asked { (asked : Asked) → (result ≡ Some asked) ↔ Ask clients asked (word.now ∷ []) }
    ensures counted { IfSome result IsCounted }
{
    match (clients, word) {
        (_, "plain") => Some(Asked::Report(Clients::Refused)),
        (_, "watch") => Some(Asked::Report(Clients::Following)),
        (Clients::Allowed, "run") => Some(Asked::Report(Clients::Allowed)),
        (_, "upgrade") => Some(Asked::Upgrade),
        (_, "trace") => Some(Asked::Trace),
        (_, "check") => Some(Asked::Check),
        _ => None,
    }
}

/// What the words ask for, if they ask for anything. Where no clients are allowed, `run` asks for nothing.
pub fn asked_by(clients: Clients, words: &[String]) -> Option<Asked>
    ensures asked { (asked : Asked) → (result ≡ Some asked) ↔ IsAsked clients asked words.now }
    ensures counted { IfSome result IsCounted }
{
    match words {
        [word] => asked_alone(clients, word.as_str()),
        [word, number] => {
            let n = count(number.as_str())?;
            match word.as_str() {
                "gen" => Some(Asked::Generate(n)),
                "sum" => Some(Asked::Summarize(n)),
                "behind" if n <= MOST_PERIOD => Some(Asked::Behind(n as u8)),
                _ => None,
            }
        }
        _ => None,
    }
}
