//! Laws of the canonical text. The functions do nothing: what they ensure is the law.
ghost use Rattle.std.specs.Prelude.{◌≡◌, ◌≤◌, ℕ, List, length};
ghost use Rattle.graphite_text.specs.Canonical.{canonical_text};
ghost use Rattle.graphite_text.specs.Graph.{PlainGraph};
ghost use Rattle.graphite_text.specs.Reading.{Accepted, reading_of};

/// The canonical text of the graph that a text is accepted with is accepted with the same graph.
pub fn canonical_text_is_read()
    ensures { (bytes : List ℕ) (graph : PlainGraph)
        → reading_of bytes ≡ Accepted graph → reading_of (canonical_text graph) ≡ Accepted graph }
{}

/// The canonical text has at most as many bytes as the text that the graph was read from.
pub fn canonical_text_is_no_longer()
    ensures { (bytes : List ℕ) (graph : PlainGraph)
        → reading_of bytes ≡ Accepted graph → length (canonical_text graph) ≤ length bytes }
{}

/// Two texts with the same canonical text are accepted with the same graph.
pub fn canonical_text_tells_graphs_apart()
    ensures { (bytes other_bytes : List ℕ) (graph other : PlainGraph)
        → reading_of bytes ≡ Accepted graph → reading_of other_bytes ≡ Accepted other
        → canonical_text graph ≡ canonical_text other → graph ≡ other }
{}
