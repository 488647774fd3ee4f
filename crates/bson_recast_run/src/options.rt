// The options of the command line, and what it asks for.
ghost use Rattle.std.specs.Prelude.{◌≡◌, map, string_bytes};
ghost use Rattle.bson_recast_run.specs.Making.{rows_in, rows_asked};
ghost use Rattle.bson_recast_run.specs.Options.{is_plain, no_options, options_of, with_option, recast_with};
ghost use Rattle.bson_tree_recast.specs.Recast.{IsRecast};

use bson_recasting::{recast, recast_utf8_lossy};
use bson_shape::Shape;
use bson_tree_recast::{RecastError, recast_by_tree};
use std::alloc::Global;

/// How a document is recast.
#[derive(Clone, Copy)]
pub(crate) enum Way {
    /// Its value is read and written.
    Plain,
    /// `--lossy`: the same, and texts are mended.
    Lossy,
    /// `--tree`: by way of trees.
    Tree,
}

/// What the options ask for.
#[derive(Clone, Copy)]
pub(crate) struct Options {
    pub(crate) way: Way,
    /// `--hex`: the input and the output are hexadecimal digits.
    pub(crate) hex: bool,
}

/// A recast at a shape, with options.
#[derive(Drop)]
pub(crate) struct Job {
    pub(crate) options: Options,
    pub(crate) shape: Shape,
}

/// What the words ask for.
#[derive(Drop)]
pub(crate) enum Request {
    /// A recast of the input.
    Recast(Job),
    /// `--make`: a recast of a document of so many rows, which is made.
    Make(u32),
}

/// The most rows that may be asked for.
const MAX_ROWS: u32 = 100_000;

impl Way {
    // Whether no option asks for another way.
    fn is_plain(self) -> bool
        ensures { result ≡ is_plain self }
    {
        matches!(self, Way::Plain)
    }
}

impl Options {
    // These options and the one that a word is; `None` where it is none, or one that was given before, or where `--lossy` and `--tree` would be together.
    fn with(self, word: &str) -> Option<Options>
        ensures { result ≡ with_option self word.now }
    {
        match word {
            "--lossy" if self.way.is_plain() => Some(Options {
                way: Way::Lossy,
                ..self
            }),
            "--tree" if self.way.is_plain() => Some(Options {
                way: Way::Tree,
                ..self
            }),
            "--hex" if !self.hex => Some(Options { hex: true, ..self }),
            _ => None,
        }
    }
}

/// The options that the words begin with, each at most once, and the words behind them.
pub(crate) fn leading_options(words: &[String]) -> (Options, &[String])
    ensures options { result.0 ≡ (options_of no_options (map string_bytes words.now)).0 }
    ensures rest { map string_bytes result.1.now ≡ (options_of no_options (map string_bytes words.now)).1 }
{
    let mut options = Options {
        way: Way::Plain,
        hex: false,
    };
    let mut rest = words;
    while let [word, others @ ..] = rest {
        let Some(more) = options.with(word.as_str()) else {
            break;
        };
        options = more;
        rest = others;
    }
    (options, rest)
}

/// The number of rows that the words ask for, where they are `--make` and such a number.
pub(crate) fn rows_asked(words: &[String]) -> Option<u32>
    ensures { result ≡ rows_asked (map string_bytes words.now) }
{
    match words {
        [option, number] if option.as_str() == "--make" => rows_in(number.as_str()),
        _ => None,
    }
}

// The number of rows that a word is in decimal digits, with no zero in front.
fn rows_in(word: &str) -> Option<u32>
    ensures { result ≡ rows_in word.now }
{
    let Ok(rows) = word.parse::<u32>() else {
        return None;
    };
    let mut digits = itoa::Buffer::new();
    if rows <= MAX_ROWS && digits.format(rows) == word {
        Some(rows)
    } else {
        None
    }
}

impl Job {
    /// The recast of a document's bytes.
    pub(crate) fn recast(&self, alloc: Global, document: &[u8]) -> Result<Vec<u8>, RecastError>
        ensures { IsRecast (recast_with self.now.options.way self.now.shape document.now) result }
    {
        match self.options.way {
            Way::Plain => recast(alloc, &self.shape, document),
            Way::Lossy => recast_utf8_lossy(alloc, &self.shape, document),
            Way::Tree => recast_by_tree(alloc, &self.shape, document),
        }
    }
}
