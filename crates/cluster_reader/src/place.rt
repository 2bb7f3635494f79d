//! Place among the elements of a file

ghost use Rattle.std.specs.Prelude.{◌≡◌, ◌≤◌, Some, None};
ghost use Rattle.mkv_schema.specs.Element.{end_in};
ghost use Rattle.block_format.specs.Events.{is_closed};
ghost use Rattle.cluster_reader.specs.Places.{behind_child, bound_in, cluster_in, first_place};
ghost use Rattle.mkv_io.specs.declared.outside.TheConstants.{LONGEST_FILE};

use ebml_numbers::Size;
use elements::end_in;
use mkv_schema::Header;

/// Place among the Elements of a Segment; offsets are in bytes from the start of the file
#[derive(Clone, Copy)]
pub struct Place {
    /// Size in the Segment's header
    pub size: Size,
    /// Offset of the next Element
    pub at: u64,
    /// Offset that the Segment can't exceed
    pub end: u64,
    /// Cluster that has the next Element, if any
    pub cluster: Option<OpenCluster>,
}

/// Cluster whose children are being read
#[derive(Clone, Copy)]
pub struct OpenCluster {
    /// Offset of the Cluster's end, or one that it can't exceed
    pub end: u64,
    /// The Cluster's size is known, and it ends within the file
    pub closed: bool,
    /// The Cluster's size is unknown
    pub unknown: bool,
    /// The Cluster's Timestamp in ticks, if it was read
    pub timestamp: Option<u64>,
}

impl Place {
    /// Returns the place of the first Element in `segment`, in a file of `total` bytes, where a cursor starts.
    pub fn first(segment: &Header, total: u64) -> Place
        ensures { result ≡ first_place segment.now total }
    {
        Place {
            size: segment.size,
            at: segment.body,
            end: bound_in(segment, total),
            cluster: None,
        }
    }

    /// Returns the place after the Element of level 1 with the header `header`, which isn't a Cluster and is skipped.
    /// Used by `turn_at_level_1`.
    pub fn behind(self, header: &Header) -> Place
        ensures { result ≡ record self { at = end_in self.end header.now } }
    {
        Place {
            at: end_in(header, self.end),
            ..self
        }
    }

    /// Returns the place of the first child of the Cluster with the header `header`, in a file of `total` bytes, when a
    /// walk enters it. Used by `turn_at_level_1`.
    pub fn entered(self, header: &Header, total: u64) -> Place
        requires { total ≤ LONGEST_FILE }
        ensures { result ≡ record self { at = header.now.body; cluster = Some (cluster_in total self.end header.now) } }
    {
        let cluster = OpenCluster {
            end: bound_in(header, self.end),
            closed: is_closed(header, total),
            unknown: header.size == Size::Unknown,
            timestamp: None,
        };
        Place {
            at: header.body,
            cluster: Some(cluster),
            ..self
        }
    }

    /// Returns the place after the child with the header `child` of `cluster`, which a walk has read or skipped.
    /// `timestamp` is the Cluster's Timestamp in ticks, if it was read.
    pub fn passed(self, cluster: OpenCluster, child: &Header, timestamp: Option<u64>) -> Place
        ensures { result ≡ behind_child self cluster child.now timestamp }
    {
        Place {
            at: end_in(child, cluster.end),
            cluster: Some(OpenCluster {
                timestamp,
                ..cluster
            }),
            ..self
        }
    }

    /// Returns the place at the offset `at` of the file, outside any Cluster, when a walk leaves a Cluster or ends.
    pub fn outside(self, at: u64) -> Place
        ensures { result ≡ record self { at = at; cluster = None } }
    {
        Place {
            at,
            cluster: None,
            ..self
        }
    }
}

// Returns the greatest offset in the file that the Segment or Cluster with the header `header` may reach, in a parent
// that ends at the offset `end`. Used by `first` and `entered`.
fn bound_in(header: &Header, end: u64) -> u64
    ensures { result ≡ bound_in end header.now }
{
    match header.size {
        Size::Known(_) => end_in(header, end),
        Size::Unknown => end,
    }
}

// Checks whether the Cluster with the header `header` has a known size and ends within a file of `total` bytes. Reading
// can go on after damage in it. Used by `entered`.
fn is_closed(header: &Header, total: u64) -> bool
    requires { total ≤ LONGEST_FILE }
    ensures { result ≡ is_closed total header.now }
{
    match header.size {
        Size::Known(size) => header.body.saturating_add(size) <= total,
        Size::Unknown => false,
    }
}
