//! Command lines.

ghost use Rattle.std.specs.Prelude.{◌≡◌, IfOk, OnErr, IsTrue, false};
ghost use Rattle.actx_cli.specs.Words.{IsCommand, IsNoCommand, IsName, Names, texts};
ghost use Rattle.actx_cli.specs.Found.{command};

/// The words are no command line.
#[derive(Clone, Copy, Debug, PartialEq, Eq)]
pub struct Usage;

/// Where the readings of the clock come from.
#[derive(Clone, Copy, Debug, PartialEq, Eq)]
pub enum Feed {
    /// From the tape that the program was given.
    Given,
}

/// What a command line asks for.
#[derive(Clone, Copy, Debug)]
pub enum Words<'a> {
    /// `run FILE`: run the file, with at most `steps` moves, and write what it prints.
    Run {
        steps: u64,
        feed: Feed,
        file: &'a str,
    },
}

// How many moves a run may make where the command line doesn't say.
const STANDARD_BUDGET: u64 = 50_000_000;

// A name isn't empty and doesn't begin with a dash.
fn is_name(word: &str) -> bool
    ensures yes { IsTrue result → IsName word.now }
    ensures no { result ≡ false → IsName word.now → ⊥ }
{
    match word.as_bytes() {
        [] => false,
        [b, ..] => *b != b'-',
    }
}

/// Reads a command line, the words after the program's name. It takes no memory. `Usage` comes
/// exactly where the words are no command line.
pub fn read_words(words: &[String]) -> Result<Words<'_>, Usage>
    ensures command { IfOk result (λ found. IsCommand (texts words.now) (command found)) }
    ensures usage { OnErr result (IsNoCommand (texts words.now)) }
{
    let [first, file] = words else {
        return Err(Usage);
    };
    if first.as_str() == "run" && is_name(file.as_str()) {
        Ok(Words::Run {
            steps: STANDARD_BUDGET,
            feed: Feed::Given,
            file: file.as_str(),
        })
    } else {
        Err(Usage)
    }
}

/// The file that the words name.
pub fn file_named(words: &[String]) -> Result<&str, Usage>
    ensures file { IfOk result (λ file. Names (texts words.now) file.now) }
    ensures usage { OnErr result (IsNoCommand (texts words.now)) }
{
    match read_words(words)? {
        Words::Run { file, .. } => Ok(file),
    }
}
