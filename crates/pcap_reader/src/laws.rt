//! Laws of capture files: calls that do nothing, whose contracts say what is true of every file.
ghost use Rattle.std.specs.Prelude.{ℕ, ◌≤◌, ◌^◌, List, Option, length};
ghost use Rattle.pcap_reader.specs.Good.{good};
ghost use Rattle.pcap_reader.specs.Laws.{GivenAreFirst, WaitingHasAll};
ghost use Rattle.pcap_reader.specs.Numbering.{NumberedFrom};
ghost use Rattle.pcap_reader.specs.Reading.{HasReading, OneReading};

/// What a libpcap file holds, said without an order of reading: after the file header stand records,
/// joined, and a rest at whose front no further record stands, and exactly one list of records is so.
pub fn one_reading()
    ensures reading { HasReading }
    ensures only { OneReading }
{}

/// The records of a file that are wanted are numbered from 0 on, and there are at most 2^40.
pub fn numbered()
    ensures numbers { (wanted : Option ℕ) (bytes : List ℕ) → NumberedFrom 0 (good wanted bytes).records }
    ensures few { (wanted : Option ℕ) (bytes : List ℕ) → length (good wanted bytes).records ≤ 2 ^ 40 }
{}

/// What a reader has given is the front of what the file holds, whatever bytes follow; and where `next`
/// answered None and nothing was fed since, it is all that the bytes fed hold.
pub fn given_are_first()
    ensures first { GivenAreFirst }
    ensures all { WaitingHasAll }
{}
