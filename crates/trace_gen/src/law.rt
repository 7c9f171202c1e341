//! Laws of the samples: calls that do nothing, whose contracts say what is true of the files of every number.

ghost use Rattle.std.specs.Prelude.{◌≡◌, ℕ, None, false, length};
ghost use Rattle.std.specs.List.{sum_by};
ghost use Rattle.pcap_reader.specs.Good.{good};
ghost use Rattle.trace_gen.specs.Captures.{all_seen, capture_file, points, seen_at};
ghost use Rattle.trace_gen.specs.ReadBack.{records_seen};

/// The file of each capture point is whole, and its records are what the point saw.
pub fn files_read_back()
    ensures { (number point : ℕ) → good None (capture_file point (all_seen number))
        ≡ record { records = records_seen 0 (seen_at point (all_seen number)); bad = None; cut = false } }
{}

/// The files of all capture points together have as many records as was seen.
pub fn all_is_filed()
    ensures { (number : ℕ) → sum_by (λ point. length (seen_at point (all_seen number))) points ≡ length (all_seen number) }
{}
