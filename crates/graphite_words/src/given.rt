//! What the words give, as text.
ghost use Rattle.std.specs.Prelude.{◌≡◌, None, Some, option_map, IfOk, IsErrOf};
ghost use Rattle.std.specs.Option.{option_or};
ghost use Rattle.clap.specs.Words.{found_of, rows_of};
ghost use Rattle.graphite_words.specs.Query.{plain_given, plain_made, plain_row};
ghost use Rattle.graphite_words.specs.Words.{given_in, has_numbers, has_only_taken, has_wanted, is_taken, made_of, names_paths, takes, tells_paths};

use crate::fault::WordsFault;
use crate::made::MadeAsk;
use crate::table::Row;
use crate::values::made_by;
use clap::ArgMatches;

/// The word of a program and the value of each option, where the words give it.
#[derive(Clone, Copy, Debug, PartialEq, Eq)]
pub struct Given<'w> {
    pub program: Option<&'w str>,
    pub source: Option<&'w str>,
    pub target: Option<&'w str>,
    pub key: Option<&'w str>,
    pub from: Option<&'w str>,
    pub until: Option<&'w str>,
    pub steps: Option<&'w str>,
    pub report: Option<&'w str>,
    pub at: Option<&'w str>,
    pub path: Option<&'w str>,
    pub seed: Option<&'w str>,
    pub vertices: Option<&'w str>,
    pub edges: Option<&'w str>,
    pub horizon: Option<&'w str>,
    pub of: Option<&'w str>,
}

impl<'w> Given<'w> {
    /// What the words give that have these matches.
    pub fn of_matches(matches: &ArgMatches<'w>) -> Given<'w>
        ensures { plain_given result ≡ given_in (rows_of (found_of matches.now)) }
    {
        Given {
            program: matches.get_str("program"),
            source: matches.get_str("source"),
            target: matches.get_str("target"),
            key: matches.get_str("key"),
            from: matches.get_str("from"),
            until: matches.get_str("until"),
            steps: matches.get_str("steps"),
            report: matches.get_str("report"),
            at: matches.get_str("at"),
            path: matches.get_str("path"),
            seed: matches.get_str("seed"),
            vertices: matches.get_str("vertices"),
            edges: matches.get_str("edges"),
            horizon: matches.get_str("horizon"),
            of: matches.get_str("of"),
        }
    }

    /// The name of the vertex, which is the source or the target.
    pub fn vertex(self) -> Option<&'w str>
        ensures { option_map (λ name. name.now) result ≡ option_or (plain_given self.entry).source (plain_given self.entry).target }
    {
        self.source.or(self.target)
    }

    /// What a graph is made from, where that is given. Refused where a value says no such number or
    /// program, or where there is an edge and no vertex.
    pub fn made(self) -> Result<Option<MadeAsk>, WordsFault>
        ensures asked { IfOk result (λ made. made_of (plain_given self.entry).seed (plain_given self.entry).vertices
            (plain_given self.entry).edges (plain_given self.entry).horizon (plain_given self.entry).of
            ≡ Some (option_map plain_made made)) }
        ensures refused { IsErrOf result WordsFault.Refused → made_of (plain_given self.entry).seed
            (plain_given self.entry).vertices (plain_given self.entry).edges (plain_given self.entry).horizon
            (plain_given self.entry).of ≡ None }
    {
        match (self.seed, self.vertices, self.edges, self.horizon, self.of) {
            (Some(seed), Some(vertices), Some(edges), Some(horizon), Some(of)) => {
                let made = made_by(seed, vertices, edges, horizon, of).ok_or(WordsFault::Refused)?;
                Ok(Some(made))
            }
            _ => Ok(None),
        }
    }

    /// Whether each option that a program of this row wants is given, and none that it does not take.
    pub fn fits(self, row: Row) -> bool
        ensures { result ≡ takes (plain_row row) (plain_given self.entry) }
    {
        self.has_wanted(row) && self.has_only_taken(row)
    }

    /// Whether a source, a target, a key and what a graph is made from are given exactly where they are
    /// wanted, and an end of the window wherever one is wanted.
    fn has_wanted(self, row: Row) -> bool
        ensures { result ≡ has_wanted (plain_row row) (plain_given self.entry) }
    {
        self.source.is_some() == row.wants_source
            && self.target.is_some() == row.wants_target
            && self.key.is_some() == row.wants_key
            && (self.until.is_some() || !row.wants_until)
            && self.has_numbers(row)
    }

    /// Whether what a graph is made from is given exactly where it is made.
    fn has_numbers(self, row: Row) -> bool
        ensures { result ≡ has_numbers (plain_row row) (plain_given self.entry) }
    {
        self.seed.is_some() == row.makes
            && self.vertices.is_some() == row.makes
            && self.edges.is_some() == row.makes
            && self.horizon.is_some() == row.makes
            && self.of.is_some() == row.makes
    }

    /// Whether the other options are given only where they are taken, and paths are told only where they are.
    fn has_only_taken(self, row: Row) -> bool
        ensures { result ≡ has_only_taken (plain_row row) (plain_given self.entry) }
    {
        is_taken(row.takes_window, self.from)
            && is_taken(row.takes_window, self.until)
            && is_taken(row.takes_steps, self.steps)
            && is_taken(row.takes_report, self.report)
            && is_taken(row.takes_report, self.at)
            && (row.takes_paths || !self.tells_paths())
    }

    /// Whether paths are to be told: of one vertex, or by the kind of report.
    fn tells_paths(self) -> bool
        ensures { result ≡ tells_paths (plain_given self.entry) }
    {
        self.path.is_some() || names_paths(self.report)
    }
}

/// Whether this is the kind of report that tells paths.
fn names_paths(report: Option<&str>) -> bool
    ensures { result ≡ names_paths (option_map (λ v. v.now) report.entry) }
{
    match report {
        Some(value) => value == "paths",
        None => false,
    }
}

/// Whether an option is given only where it is taken.
fn is_taken(taken: bool, value: Option<&str>) -> bool
    ensures { result ≡ is_taken taken (option_map (λ v. v.now) value.entry) }
{
    value.is_none() || taken
}
