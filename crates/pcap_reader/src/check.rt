//! The plain program beside the reader, over a libpcap file that is in memory whole.
ghost use Rattle.std.specs.Prelude.{◌≡◌, ◌<◌, ◌^◌, length, Some, None, IfOk, IfErr, false};
ghost use Rattle.pcap_reader.specs.Good.{good, is_pcapng};

use crate::format::{front, read_header};
use crate::record::find_record;
use ds_base::{Bad, Tail};

/// How many records a whole libpcap file has and whether it ends inside one, or its first malformed place (libpcap
/// file format 2.4). It takes no memory.
///
/// This is the plain program beside `PcapReader`, which reads the same in pieces and lends the records;
/// `each_file_ends_as_the_format_says` runs both.
pub fn check_file(bytes: &[u8]) -> Result<Tail, Bad>
    requires libpcap { is_pcapng bytes.now ≡ false }
    requires room { length bytes.now < 2 ^ 62 }
    ensures whole { IfOk result (λ t. ((good None bytes.now).bad ≡ None) × (t.records ≡ length (good None bytes.now).records) × (t.cut ≡ (good None bytes.now).cut)) }
    ensures bad { IfErr result (λ b. (good None bytes.now).bad ≡ Some b) }
{
    let format = read_header(front(bytes, 24))?;
    let mut records = 0;
    let mut at = 24;
    while let Some(len) = find_record(format, records, at as u64, &bytes[at..])? {
        records += 1;
        at += len;
    }
    Ok(Tail {
        records,
        cut: at < bytes.len(),
    })
}
