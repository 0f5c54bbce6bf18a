//! The table of programs.
ghost use Rattle.std.specs.Prelude.{◌≡◌};
ghost use Rattle.graphite_words.specs.Query.{plain_row};
ghost use Rattle.graphite_words.specs.Table.{command_of, row_named, row_of, row_with_steps, row_with_window};

use crate::steps::Steps;

/// A program that the words may ask for.
#[derive(Clone, Copy, Debug, PartialEq, Eq)]
pub enum Command {
    /// The out-degree of each vertex at each instant of its life.
    Degree,
    /// Breadth-first search from a vertex.
    Bfs,
    /// The least number of a vertex that is connected with each vertex.
    Components,
    /// The greatest value of a property over the vertices from which a walk leads to each vertex, itself
    /// among them.
    Max,
    /// The least cost of a walk from a vertex.
    Distance,
    /// The rank of each vertex, by the ranks of those from which edges lead to it.
    Rank,
    /// Whether a journey from a vertex has arrived at each vertex.
    Reach,
    /// The earliest arrival at each vertex of a journey from a vertex.
    Earliest,
    /// The least cost of a journey from a vertex to each vertex.
    Cheapest,
    /// The least duration of a journey from a vertex to each vertex.
    Fastest,
    /// The latest departure from each vertex of a journey to a vertex.
    Latest,
    /// The canonical text of the graph.
    Show,
    /// A graph made from a number, and the size of the report of a program that is run on it.
    Made,
}

/// A row of the table of programs.
#[derive(Clone, Copy, Debug, PartialEq, Eq)]
pub struct Row {
    /// The word that names the program.
    pub word: &'static [u8],
    /// Whether it starts from a vertex, whose name has to be given. No other program may be given one.
    pub wants_source: bool,
    /// Whether it leads to a vertex, whose name has to be given. No other program may be given one.
    pub wants_target: bool,
    /// Whether it reads a property, whose key has to be given. No other program may be given one.
    pub wants_key: bool,
    /// Whether it may be given a window of instants: the first one, and the end.
    pub takes_window: bool,
    /// Whether it has to be given the end of the window.
    pub wants_until: bool,
    /// Whether it may be given the number of supersteps allowed.
    pub takes_steps: bool,
    /// Whether it may be told what to report: a kind of report, or an instant.
    pub takes_report: bool,
    /// Whether it may be told to report paths: of all vertices by the kind of report, or of one by its name.
    pub takes_paths: bool,
    /// Whether it makes its graph from a number: the seed, the vertices, the edges, the horizon and the
    /// program to run on it have to be given. No other program may be given one of them.
    pub makes: bool,
    /// How many supersteps are allowed where the words do not say it. `None` stands for one more than the
    /// vertices have lifespans.
    pub usual_steps: Option<Steps>,
}

/// The row of a program.
pub fn row_of(command: Command) -> Row
    ensures { plain_row result ≡ row_of command }
{
    match command {
        Command::Degree => Row {
            takes_report: true,
            ..row_named(b"degree")
        },
        Command::Bfs => Row {
            wants_source: true,
            ..row_with_steps(b"bfs")
        },
        Command::Components => row_with_steps(b"components"),
        Command::Max => Row {
            wants_key: true,
            ..row_with_steps(b"max")
        },
        Command::Distance => Row {
            wants_source: true,
            ..row_with_steps(b"distance")
        },
        Command::Rank => Row {
            usual_steps: Some(Steps::new(30)),
            ..row_with_steps(b"rank")
        },
        Command::Reach => Row {
            wants_source: true,
            ..row_with_window(b"reach")
        },
        Command::Earliest => Row {
            wants_source: true,
            ..row_with_window(b"earliest")
        },
        Command::Cheapest => Row {
            wants_source: true,
            ..row_with_window(b"cheapest")
        },
        Command::Fastest => Row {
            wants_source: true,
            wants_until: true,
            ..row_with_window(b"fastest")
        },
        Command::Latest => Row {
            wants_target: true,
            ..row_with_window(b"latest")
        },
        Command::Show => row_named(b"show"),
        Command::Made => Row {
            makes: true,
            ..row_named(b"made")
        },
    }
}

/// The row of a program with this word that takes no option.
fn row_named(word: &'static [u8]) -> Row
    ensures { plain_row result ≡ row_named word.now }
{
    Row {
        word,
        wants_source: false,
        wants_target: false,
        wants_key: false,
        takes_window: false,
        wants_until: false,
        takes_steps: false,
        takes_report: false,
        takes_paths: false,
        makes: false,
        usual_steps: None,
    }
}

/// The row of a program with this word that may be given a number of supersteps, and told what to report.
fn row_with_steps(word: &'static [u8]) -> Row
    ensures { plain_row result ≡ row_with_steps word.now }
{
    Row {
        takes_steps: true,
        takes_report: true,
        ..row_named(word)
    }
}

/// The row of a program with this word that may be given a window besides: a program of journeys, which
/// alone have paths.
fn row_with_window(word: &'static [u8]) -> Row
    ensures { plain_row result ≡ row_with_window word.now }
{
    Row {
        takes_window: true,
        takes_paths: true,
        ..row_with_steps(word)
    }
}

/// The program that a word names, if any.
pub fn command_of(word: &[u8]) -> Option<Command>
    ensures { result ≡ command_of word.now }
{
    if row_of(Command::Degree).word == word {
        return Some(Command::Degree);
    }
    if row_of(Command::Bfs).word == word {
        return Some(Command::Bfs);
    }
    if row_of(Command::Components).word == word {
        return Some(Command::Components);
    }
    if row_of(Command::Max).word == word {
        return Some(Command::Max);
    }
    if row_of(Command::Distance).word == word {
        return Some(Command::Distance);
    }
    if row_of(Command::Rank).word == word {
        return Some(Command::Rank);
    }
    if row_of(Command::Reach).word == word {
        return Some(Command::Reach);
    }
    if row_of(Command::Earliest).word == word {
        return Some(Command::Earliest);
    }
    if row_of(Command::Cheapest).word == word {
        return Some(Command::Cheapest);
    }
    if row_of(Command::Fastest).word == word {
        return Some(Command::Fastest);
    }
    if row_of(Command::Latest).word == word {
        return Some(Command::Latest);
    }
    if row_of(Command::Show).word == word {
        return Some(Command::Show);
    }
    if row_of(Command::Made).word == word {
        return Some(Command::Made);
    }
    None
}
