ghost use Rattle.std.specs.Prelude.{◌≡◌, map, reverse};
ghost use Rattle.bson_values.specs.PathView.{path_view, segment_view};

use std::fmt;

/// A segment of a path: from a value to one inside it.
#[derive(Debug, Drop)]
pub enum Segment {
    /// Into a document, at this key.
    Key(String),
    /// Into an array, at this index, from 0.
    Index(u64),
}

/// Where a value is: the segments from the whole document to it.
///
/// It prints keys joined by points and indexes in brackets, as `a.b[2]`; the empty path prints `.`.
#[derive(Debug, Drop)]
pub struct Path {
    segments: Vec<Segment>,
}

impl Path {
    /// The path of these segments, the outermost first.
    pub fn new(segments: Vec<Segment>) -> Path
        ensures segments { path_view result ≡ map segment_view segments.items }
    {
        Path { segments }
    }

    // The path of these segments, the innermost first.
    #[tactic(auto, using(crate::proofs::Reversed::map_reverse))]
    pub(crate) fn from_innermost(mut segments: Vec<Segment>) -> Path
        ensures { path_view result ≡ reverse (map segment_view segments.items) }
    {
        segments.reverse();
        Path { segments }
    }

    /// The segments, the outermost first.
    pub fn segments(&self) -> &[Segment]
        ensures segments { map segment_view result.now ≡ path_view self.now }
    {
        &self.segments
    }
}

// A segment at its place in a path.
#[derive(Drop)]
struct Placed<'a>(usize, &'a Segment);

impl fmt::Display for Placed<'_> {
    ghost use Rattle.std.specs.Prelude.{Some};
    ghost use Rattle.bson_values.specs.Printed.{printed_segment};
    ghost use Rattle.bson_values.specs.PathView.{segment_view};

    ghost output = { λ s. Some (printed_segment s.0 (segment_view s.1.now)) };

    fn fmt<W: fmt::Write>(&self, f: &mut fmt::Formatter<W>) -> fmt::Result {
        match self.1 {
            Segment::Key(key) => {
                if self.0 > 0 {
                    write!(f, ".{key}")
                } else {
                    write!(f, "{key}")
                }
            }
            Segment::Index(index) => write!(f, "[{index}]"),
        }
    }
}

impl fmt::Display for Path {
    ghost use Rattle.std.specs.Prelude.{Some};
    ghost use Rattle.bson_values.specs.Printed.{printed_path};
    ghost use Rattle.bson_values.specs.PathView.{path_view};

    ghost output = { λ p. Some (printed_path (path_view p)) };

    fn fmt<W: fmt::Write>(&self, f: &mut fmt::Formatter<W>) -> fmt::Result {
        if self.segments.is_empty() {
            return f.write_str(".");
        }
        for (i, segment) in self.segments.iter().enumerate() {
            let placed = Placed(i, segment);
            write!(f, "{placed}")?;
        }
        Ok(())
    }
}
