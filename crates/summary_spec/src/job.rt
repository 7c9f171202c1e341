//! The job: its parts, and that it is lawful.

ghost use Rattle.summary_spec.specs.Declaration.{declared};
ghost use Rattle.summary_spec.specs.Lawful.{IsLawful};
ghost use Rattle.summary_spec.specs.Propositions.{Lawful-prop};

use ds_base::{KeyList, NameList, Text};
use job_table::{InterfaceList, OffsetList, Query, SkewList, TakeList};
use query_lang::{Expr, Names};

/// A job. Whoever holds one knows that it is lawful: its numbers of variables and captures are in
/// range, its limits are kept, and its filter and its test are what their texts are parsed to, with
/// its names.
#[derive(Drop)]
pub struct Job {
    /// The version of its declaration, 1 to 3.
    pub version: u32,
    /// The UDP port of VXLAN.
    pub port: u16,
    /// The names of the variables and of the captures.
    pub names: Names,
    /// The file of each capture.
    pub files: NameList,
    /// What is added to the times of each capture, in nanoseconds: at most an hour either way.
    pub offsets: OffsetList,
    /// By how much less than the newest before it the time of a record of each capture may be, in
    /// nanoseconds.
    pub skews: SkewList,
    /// The interface of its file whose packets are the records of each capture; none: those of all
    /// interfaces.
    pub interfaces: InterfaceList,
    /// The alternatives of each variable.
    pub takes: TakeList,
    /// The filter as it was given.
    pub filter_text: Text,
    /// The filter, over a summary.
    pub filter: Expr,
    /// The numbers of the variables of the key.
    pub key: KeyList,
    /// How long after a group's first its members may be, in nanoseconds.
    pub window: u64,
    /// The skew of the captures that declare none of their own, in nanoseconds.
    pub skew: u64,
    /// Whether the delays between captures are reported.
    pub profile: bool,
    /// What is asked of each group.
    pub query: Query,
    pub ghost lawful: { IsLawful (declared (record {
      version = version;
      port = port;
      names = names;
      files = files;
      offsets = offsets;
      skews = skews;
      interfaces = interfaces;
      takes = takes;
      filter_text = filter_text;
      filter = filter;
      key = key;
      window = window;
      skew = skew;
      profile = profile;
      query = query;
    })) } by { Lawful-prop (declared (record {
      version = version;
      port = port;
      names = names;
      files = files;
      offsets = offsets;
      skews = skews;
      interfaces = interfaces;
      takes = takes;
      filter_text = filter_text;
      filter = filter;
      key = key;
      window = window;
      skew = skew;
      profile = profile;
      query = query;
    })) },
}
